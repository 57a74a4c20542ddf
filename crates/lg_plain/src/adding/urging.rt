//! How the priority of a task goes on to what it waits for.
ghost use Rattle.std.specs.Prelude.{◌≡◌, IsTrue, OnOk};
ghost use Rattle.lg_calls.specs.AddTask.Describing.{by_task};
ghost use Rattle.lg_calls.specs.Raising.{raised};
ghost use Rattle.lg_calls.specs.Tasks.{have_distinct_ids};

use crate::change::find_task;
use crate::raising::raise;
use lg_base::{NoMemory, Seq, TaskId};
use lg_calls::{AddTask, State};
use std::alloc::Global;
use std::mem;

/// What the task of a call waits for is as urgent as that task is. Where there is no memory the tasks are left anyhow.
pub(crate) fn pass_on(state: &mut State, alloc: Global, ask: &AddTask) -> Result<(), NoMemory>
    requires { IsTrue (have_distinct_ids state.old.tasks) }
    ensures { OnOk result (state.new ≡ by_task ask.now (λ task here. record here { tasks = raised task.priority ask.now.task_id here.tasks }) state.old) }
{
    match find_task(state.tasks.as_slice(), &ask.task_id) {
        None => Ok(()),
        Some(task) => {
            let priority = task.priority;
            raise_tasks(state, alloc, &ask.task_id, priority)
        }
    }
}

// The tasks of a state that the task of an id waits for are raised to a priority.
fn raise_tasks(state: &mut State, alloc: Global, id: &TaskId, priority: i64) -> Result<(), NoMemory>
    requires { IsTrue (have_distinct_ids state.old.tasks) }
    ensures { OnOk result (state.new ≡ record state.old { tasks = raised priority id.now state.old.tasks }) }
{
    let mut tasks = mem::replace(&mut state.tasks, Seq::new(alloc)).into_vec();
    let outcome = raise(tasks.as_mut_slice(), alloc, id, priority);
    state.tasks = Seq::from_vec(tasks);
    outcome
}
