//! Which tasks wait for nothing but a worker.
ghost use Rattle.std.specs.Prelude.{◌≡◌};
ghost use Rattle.std.specs.List.{list_all};
ghost use Rattle.lg_calls.specs.Look.{CanBeLookedAt};
ghost use Rattle.lg_calls.specs.Work.Ready.{is_done, is_ready};

use lg_base::TaskId;
use lg_calls::{State, Status, TaskRec};
use lg_views::statuses::is_status;
use lg_views::tasks::found;

/// Whether a task is PENDING, and each of its dependencies is DONE.
pub(crate) fn is_ready(state: &State, task: &TaskRec) -> bool
    requires { CanBeLookedAt state.now }
    ensures { result ≡ is_ready state.now.tasks task.now }
{
    is_status(Status::Pending, task.status) && are_done(state, task.deps.as_slice())
}

fn are_done(state: &State, ids: &[TaskId]) -> bool
    requires { CanBeLookedAt state.now }
    ensures { result ≡ list_all (is_done state.now.tasks) ids.now }
{
    ids.iter().all(|id| is_done(state, id))
}

// Whether the task of an id is known, and DONE.
fn is_done(state: &State, id: &TaskId) -> bool
    requires { CanBeLookedAt state.now }
    ensures { result ≡ is_done state.now.tasks id.now }
{
    match found(state, id) {
        Some(task) => is_status(Status::Done, task.status),
        None => false,
    }
}
