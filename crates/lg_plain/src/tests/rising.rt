//! What a task waits for becomes as urgent as the task is.
use super::adding::{ask, ids, listed};
use super::*;
use crate::Plain;
use lg_calls::{Reported, StepFault};

// These dependencies, or none that are given where there is no word.
fn deps_given(alloc: Global, words: &[&str]) -> Result<Option<Seq<TaskId>>, NoMemory> {
    if words.is_empty() {
        Ok(None)
    } else {
        Ok(Some(ids(alloc, words)?))
    }
}

// Worker `w` reports a task PENDING, with a priority and these dependencies.
fn add(
    plain: &mut Plain,
    alloc: Global,
    task: &str,
    priority: i64,
    deps: &[&str],
) -> Result<(), NoMemory> {
    let mut ask = ask(alloc, task, Reported::Pending)?;
    ask.priority = priority;
    ask.deps = deps_given(alloc, deps)?;
    match plain.add_task(alloc, &ask) {
        Ok(()) | Err(StepFault::Full(_)) => Ok(()),
        Err(StepFault::NoMemory) => Err(NoMemory),
    }
}

// `z` is added, then `y` that waits for it, and then `x` that waits for `y`, with priority 5.
fn chain(alloc: Global) -> Result<Plain, NoMemory> {
    let mut plain = Plain::start(State::empty(alloc, Settings::new()));
    add(&mut plain, alloc, "z", 0, [].as_slice())?;
    add(&mut plain, alloc, "y", 0, ["z"].as_slice())?;
    add(&mut plain, alloc, "x", 5, ["y"].as_slice())?;
    Ok(plain)
}

// All three have priority 5 then, and a report of `y` with priority 0 leaves it.
#[test]
fn what_an_urgent_task_waits_for_is_urgent(rt: HostRuntime) -> Result<(), Fail> {
    let alloc = rt.alloc();
    let mut plain = chain(alloc)?;
    let urgent = "z Pending 'F' 5 0 1 1; y Pending 'F' 5 1 1 1; x Pending 'F' 5 1 1 1; ";
    let shown = listed(alloc, plain.state())?;
    assert_eq!(rt; shown.as_str(), urgent);
    add(&mut plain, alloc, "y", 0, [].as_slice())?;
    let shown = listed(alloc, plain.state())?;
    assert_eq!(rt; shown.as_str(), urgent);
    Ok(())
}
