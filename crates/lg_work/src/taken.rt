//! What is taken already, as a worker's search sees it.
ghost use Rattle.std.specs.Prelude.{◌≡◌, ◌+◌, ◌≤◌, ◌^◌, ◌∷◌, [], ℕ, List, length, IfOk, OnOk};
ghost use Rattle.lg_calls.specs.Status.{is_status};
ghost use Rattle.lg_calls.specs.Use.{use_by, with_status};
ghost use Rattle.lg_calls.specs.declared.status.Status.TheVariants.{Running};
ghost use Rattle.lg_calls.specs.Work.Walk.{taken};
ghost use Rattle.lg_work.specs.Sums.{sum_of, HasRoom};

use crate::sums::Sums;
use crate::walk::is_trivial;
use lg_base::{NoMemory, WorkerId};
use lg_calls::{State, Status, TaskRec};
use lg_views::statuses::is_status;
use std::alloc::Global;

/// What is taken already, as a worker's search sees it: nothing for a trivial one, which takes none itself. Refused only where
/// there is no memory.
pub(crate) fn taken(alloc: Global, worker: &WorkerId, state: &State) -> Result<Sums, NoMemory>
    requires { length state.now.tasks ≤ 1000000 }
    ensures { IfOk result (λ sums. sum_of sums ≡ taken worker.now state.now) }
{
    if is_trivial(worker, state) {
        Ok(Sums::new(alloc))
    } else {
        used(alloc, state.tasks.as_slice())
    }
}

// What the RUNNING tasks take together.
fn used(alloc: Global, tasks: &[TaskRec]) -> Result<Sums, NoMemory>
    requires { length tasks.now ≤ 1000000 }
    ensures { IfOk result (λ sums. sum_of sums ≡ use_by (with_status Running tasks.now)) }
{
    let mut used = Sums::new(alloc);
    for task in tasks {
        use_more(&mut used, task)?;
    }
    Ok(used)
}

// A task takes its resources, if it is RUNNING.
fn use_more(used: &mut Sums, task: &TaskRec) -> Result<(), NoMemory>
    requires { HasRoom used.old }
    ensures used { OnOk result ((name : List ℕ) → sum_of used.new name
        ≡ sum_of used.old name + use_by (with_status Running (task.now ∷ [])) name) }
    ensures small { OnOk result ((name : List ℕ) → sum_of used.new name ≤ sum_of used.old name + 2 ^ 32) }
{
    if is_running(task) {
        used.add_task(task)
    } else {
        Ok(())
    }
}

fn is_running(task: &TaskRec) -> bool
    ensures { result ≡ is_status Running task.now.status }
{
    is_status(Status::Running, task.status)
}
