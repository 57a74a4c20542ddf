ghost use Rattle.std.specs.Prelude.{IfOk};
ghost use Rattle.lg_calls.specs.Valid.{IsValidState};

use super::adding::ask;
use super::*;
use crate::Plain;
use lg_calls::{Reported, StepFault};

// A state of a task that a worker disabled.
fn disabled_task(alloc: Global) -> Result<State, NoMemory>
    ensures { IfOk result IsValidState }
{
    let task = task(alloc, "t", Status::Disabled)?;
    let mut tasks = Seq::new(alloc);
    tasks.push(task)?;
    let mut state = State::empty(alloc, Settings::new());
    state.tasks = tasks;
    state.moment = Moment(1_000);
    state.next = 1;
    Ok(state)
}

// A scheduler that begins with a valid state enables its task, and then it is done.
#[test]
fn a_caller_enables_and_sets(rt: HostRuntime) -> Result<(), Fail> {
    let mut plain = Plain::start(disabled_task(rt.alloc())?);
    let id = id(rt.alloc(), "t")?;
    plain.enable(rt.alloc(), &id)?;
    plain.set(rt.alloc(), &id, Status::Done)?;
    assert_eq!(rt; plain.state().tasks.len(), 1);
    let state = plain.into_state();
    for task in state.tasks.as_slice() {
        let shown = shown(rt.alloc(), task)?;
        assert_eq!(rt;
            shown.as_str(),
            "Done 1000, false None false, None 0, Some(901000) None None"
        );
    }
    Ok(())
}

// Worker `w` reports task `t` with this status. Whether there is room for it.
fn report(plain: &mut Plain, alloc: Global, status: Reported) -> Result<bool, NoMemory> {
    match plain.add_task(alloc, &ask(alloc, "t", status)?) {
        Ok(()) => Ok(true),
        Err(StepFault::Full(_)) => Ok(false),
        Err(StepFault::NoMemory) => Err(NoMemory),
    }
}

// Where the first task of a scheduler stands.
fn first_shown(alloc: Global, plain: &Plain) -> Result<String, NoMemory> {
    match plain.state().tasks.as_slice().first() {
        None => Ok(String::new(alloc)),
        Some(task) => shown(alloc, task),
    }
}

// A scheduler that begins without a task takes one that a worker runs, and then it is done.
#[test]
fn a_caller_adds_a_task_and_reports_it_done(rt: HostRuntime) -> Result<(), Fail> {
    let alloc = rt.alloc();
    let mut plain = Plain::start(State::empty(alloc, Settings::new()));
    assert!(rt; report(&mut plain, alloc, Reported::Running)?);
    let shown = first_shown(alloc, &plain)?;
    assert_eq!(rt;
        shown.as_str(),
        "Running 0, true Some(0) false, None 0, None None None"
    );
    assert!(rt; report(&mut plain, alloc, Reported::Done)?);
    let shown = first_shown(alloc, &plain)?;
    assert_eq!(rt;
        shown.as_str(),
        "Done 0, false None false, None 0, None None None"
    );
    Ok(())
}
