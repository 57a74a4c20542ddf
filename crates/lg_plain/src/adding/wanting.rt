//! Who wants a task.
ghost use Rattle.std.specs.Prelude.{◌≡◌, ◌∷◌, IfOk, OnOk};
ghost use Rattle.lg_calls.specs.AddTask.Wanting.{has_id_of, wanted_by, wants};

use super::places::put;
use super::touching::is_disabled;
use lg_base::{NoMemory, Seq, TaskId, WorkerId};
use lg_calls::{AddTask, State, TaskRec};
use std::alloc::Global;
use std::mem;

/// Whether the worker wants the task done: it isn't disabled, and doesn't just help others.
pub(crate) fn wants(ask: &AddTask, state: &State) -> bool
    ensures { result ≡ wants ask.now state.now }
{
    !is_disabled(state.workers.as_slice(), &ask.worker) && !ask.assistant
}

/// Whether a task has one of these ids.
pub(crate) fn has_id_of(ids: &[TaskId], task: &TaskRec) -> bool
    ensures { result ≡ has_id_of ids.now task.now }
{
    ids.iter().any(|id| task.id.cmp(id).is_eq())
}

/// The ids of a task and of its dependencies.
pub(crate) fn ids_wanted(alloc: Global, task: &TaskRec) -> Result<Vec<TaskId>, NoMemory>
    ensures { IfOk result (λ ids. ids.items ≡ task.now.id ∷ task.now.deps) }
{
    let mut ids = Vec::new(alloc);
    ids.push(task.id.clone()?)?;
    for dep in task.deps.as_slice() {
        ids.push(dep.clone()?)?;
    }
    Ok(ids)
}

/// A worker is a stakeholder of a task.
pub(crate) fn want(task: &mut TaskRec, alloc: Global, worker: &WorkerId) -> Result<(), NoMemory>
    ensures { OnOk result (task.new ≡ wanted_by worker.now task.old) }
{
    let worker = worker.clone()?;
    let mut stakeholders = mem::replace(&mut task.stakeholders, Seq::new(alloc)).into_vec();
    put(&mut stakeholders, worker)?;
    task.stakeholders = Seq::from_vec(stakeholders);
    Ok(())
}
