ghost use Rattle.std.specs.Prelude.{◌≡◌, ◌<◌, ◌^◌, IfOk};

use super::*;

// Sets the task at a moment, and shows its status, how many failures count, and when the scheduler disabled it.
fn set_at(alloc: Global, state: &mut State, moment: u64, status: Status) -> Result<String, NoMemory>
    requires moment { moment < 2 ^ 40 }
    requires delay { state.old.settings.retry_delay ≡ 900000 }
    ensures { state.new.settings.retry_delay ≡ 900000 }
{
    state.moment = Moment(moment);
    set(state, alloc, &id(alloc, "t")?, status)?;
    standing(alloc, state)
}

fn standing(alloc: Global, state: &State) -> Result<String, NoMemory> {
    match state.tasks.as_slice().first() {
        Some(task) => {
            let status = task.status;
            let failures = task.failures.moments().len();
            let disabled = number(task.disabled_at);
            Ok(format!(in alloc; "{status:?} {failures} {disabled:?}")?)
        }
        None => Err(NoMemory),
    }
}

fn one_task(alloc: Global) -> Result<State, NoMemory>
    ensures { IfOk result (λ state. state.settings.retry_delay ≡ 900000) }
{
    let mut tasks = Seq::new(alloc);
    tasks.push(task(alloc, "t", Status::Pending)?)?;
    Ok(state(alloc, tasks))
}

// A task that was made at 500 fails at 1,000 and at the last moment of the hour behind it: the scheduler disables it.
// Behind that a report FAILED or PENDING changes nothing, and DONE makes it DONE without failures.
#[test]
fn second_failure_within_the_hour_disables(rt: HostRuntime) -> Result<(), Fail> {
    let mut state = one_task(rt.alloc())?;
    let shown = set_at(rt.alloc(), &mut state, 1_000, Status::Failed)?;
    assert_eq!(rt; shown.as_str(), "Failed 1 None");
    let shown = set_at(rt.alloc(), &mut state, 3_601_000, Status::Failed)?;
    assert_eq!(rt; shown.as_str(), "Disabled 2 Some(3601000)");
    let shown = set_at(rt.alloc(), &mut state, 3_601_001, Status::Failed)?;
    assert_eq!(rt; shown.as_str(), "Disabled 2 Some(3601000)");
    let shown = set_at(rt.alloc(), &mut state, 3_601_001, Status::Pending)?;
    assert_eq!(rt; shown.as_str(), "Disabled 2 Some(3601000)");
    let shown = set_at(rt.alloc(), &mut state, 3_601_002, Status::Done)?;
    assert_eq!(rt; shown.as_str(), "Done 0 None");
    Ok(())
}

// A millisecond later the first failure no longer counts.
#[test]
fn second_failure_behind_the_hour_does_not(rt: HostRuntime) -> Result<(), Fail> {
    let mut state = one_task(rt.alloc())?;
    let shown = set_at(rt.alloc(), &mut state, 1_000, Status::Failed)?;
    assert_eq!(rt; shown.as_str(), "Failed 1 None");
    let shown = set_at(rt.alloc(), &mut state, 3_601_001, Status::Failed)?;
    assert_eq!(rt; shown.as_str(), "Failed 1 None");
    Ok(())
}
