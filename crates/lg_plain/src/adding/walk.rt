//! A walk along the tasks that changes those that are meant.
ghost use Rattle.std.specs.Prelude.{◌≡◌, Bool, OnOk};
ghost use Rattle.lg_calls.specs.Task.{Task};
ghost use Rattle.lg_calls.specs.Tasks.{change_meant};

use lg_base::{NoMemory, Seq};
use lg_calls::{State, TaskRec};
use std::alloc::Global;
use std::mem;

/// A change of some tasks, each by itself.
pub(crate) trait TaskChange {
    ghost is_meant: { Self → Task → Bool };

    ghost changed: { Self → Task → Task };

    /// Whether a task is meant.
    fn has(&self, task: &TaskRec) -> bool
        ensures { result ≡ is_meant self.now task.now };

    /// Changes one task. Where there is no memory the task is left anyhow.
    fn change(&self, task: &mut TaskRec, alloc: Global) -> Result<(), NoMemory>
        ensures { OnOk result (task.new ≡ changed self.now task.old) };
}

/// Changes each task that is meant, and leaves the others. Where there is no memory the tasks are left anyhow.
pub(crate) fn change_tasks<C: TaskChange>(
    state: &mut State,
    alloc: Global,
    change: &C,
) -> Result<(), NoMemory>
    ensures { OnOk result (state.new ≡ record state.old { tasks = change_meant (C.is_meant change.now) (C.changed change.now) state.old.tasks }) }
{
    let mut tasks = mem::replace(&mut state.tasks, Seq::new(alloc)).into_vec();
    let outcome = change_each(tasks.as_mut_slice(), alloc, change);
    state.tasks = Seq::from_vec(tasks);
    outcome
}

fn change_each<C: TaskChange>(
    tasks: &mut [TaskRec],
    alloc: Global,
    change: &C,
) -> Result<(), NoMemory>
    ensures { OnOk result (tasks.new ≡ change_meant (C.is_meant change.now) (C.changed change.now) tasks.old) }
{
    for task in tasks.iter_mut() {
        if change.has(task) {
            change.change(task, alloc)?;
        }
    }
    Ok(())
}
