//! Picking tasks, in the order in which they stand.
ghost use Rattle.std.specs.Prelude.{◌≡◌, ◌^◌, ◌<◌, ◌≤◌, [], ◌∷◌, ◌++◌, IfOk, OnOk, count_by, filter, length};
ghost use Rattle.lg_calls.specs.Look.{CanBeLookedAt};
ghost use Rattle.lg_views.specs.Lent.{lent};

use lg_base::NoMemory;
use lg_calls::{Look, TaskRec};
use std::alloc::Global;

/// A test of tasks.
pub trait Wanted {
    ghost use Rattle.std.specs.Prelude.{Bool};
    ghost use Rattle.lg_calls.specs.Task.{Task};

    /// Whether a task is wanted.
    ghost wants: { Self → Task → Bool };

    /// Whether a task is wanted. It takes no memory.
    fn is_met_by(&self, task: &TaskRec) -> bool
        ensures { result ≡ wants self.now task.now };
}

/// The tasks of a state that are wanted. Each task is looked at once. Refused only where there is no memory.
pub fn picked<'a, K: Look, W: Wanted>(
    alloc: Global,
    state: &'a K,
    wanted: &W,
) -> Result<Vec<&'a TaskRec>, NoMemory>
    requires { CanBeLookedAt (K.state state.now) }
    ensures { IfOk result (λ found. lent found.items ≡ filter (W.wants wanted.now) (K.state state.now).tasks) }
{
    let mut found = Vec::new(alloc);
    for place in 0..state.places() {
        match state.at(place) {
            None => continue,
            Some(task) => push_wanted(&mut found, task, wanted)?,
        }
    }
    Ok(found)
}

/// Those of some tasks that are wanted. Refused only where there is no memory.
pub fn picked_among<'a, W: Wanted>(
    alloc: Global,
    tasks: &[&'a TaskRec],
    wanted: &W,
) -> Result<Vec<&'a TaskRec>, NoMemory>
    ensures { IfOk result (λ found. lent found.items ≡ filter (W.wants wanted.now) (lent tasks.now)) }
{
    let mut found = Vec::new(alloc);
    for task in tasks {
        push_wanted(&mut found, task, wanted)?;
    }
    Ok(found)
}

fn push_wanted<'a, W: Wanted>(
    found: &mut Vec<&'a TaskRec>,
    task: &'a TaskRec,
    wanted: &W,
) -> Result<(), NoMemory>
    ensures { OnOk result (lent found.new.items ≡ lent found.old.items ++ filter (W.wants wanted.now) (task.now ∷ [])) }
{
    if wanted.is_met_by(task) {
        Ok(found.push(task)?)
    } else {
        Ok(())
    }
}

/// How many of some tasks are wanted.
pub fn count_among<W: Wanted>(tasks: &[&TaskRec], wanted: &W) -> u64
    requires { length tasks.now ≤ 1000000 }
    ensures count { result ≡ count_by (W.wants wanted.now) (lent tasks.now) }
    ensures small { result < 2 ^ 63 }
{
    let mut count = 0;
    for task in tasks {
        count += u64::from(wanted.is_met_by(task));
    }
    count
}
