//! A task is set to another status by hand.
ghost use Rattle.std.specs.Prelude.{◌≡◌, ◌+◌, ◌<◌, ◌^◌, false};
ghost use Rattle.std.specs.Option.{option_map};
ghost use Rattle.lg_json.specs.Tree.{str};
ghost use Rattle.lg_calls.specs.Settling.{failures_forgiven, marked_as_done, settled, status_told};
ghost use Rattle.lg_calls.specs.Status.{set_status};
ghost use Rattle.lg_calls.specs.Tasks.{find_task};
ghost use Rattle.lg_calls.specs.Valid.{is_running, IsValidState};
ghost use Rattle.lg_calls.specs.Words.{status_word};
ghost use Rattle.lg_plain.specs.Requests.{Comes};

use super::replies::settled;
use crate::change::{find_task, set};
use lg_base::{NoMemory, TaskId};
use lg_calls::{Reply, State, Status, TaskRec};
use std::alloc::Global;

/// Lets a failed task run again at once.
pub(super) fn forgive_failures(
    state: &mut State,
    alloc: Global,
    id: &TaskId,
) -> Result<Reply, NoMemory>
    requires { IsValidState state.old }
    ensures { Comes state.old (failures_forgiven id.now state.old) state.new result }
{
    match status_of(state.tasks.as_slice(), id) {
        Some(Status::Failed) => set_and_tell(state, alloc, id, Status::Pending),
        status => settled(alloc, id, status),
    }
}

/// Takes a task for done that runs by itself, failed or is disabled.
pub(super) fn mark_as_done(state: &mut State, alloc: Global, id: &TaskId) -> Result<Reply, NoMemory>
    requires { IsValidState state.old }
    ensures { Comes state.old (marked_as_done id.now state.old) state.new result }
{
    match status_of(state.tasks.as_slice(), id) {
        Some(Status::Running | Status::Failed | Status::Disabled) => {
            set_and_tell(state, alloc, id, Status::Done)
        }
        status => settled(alloc, id, status),
    }
}

// The status of the task of an id, if it is known.
fn status_of(tasks: &[TaskRec], id: &TaskId) -> Option<Status>
    ensures { result ≡ option_map (λ task. task.status) (find_task id.now tasks.now) }
{
    Some(find_task(tasks, id)?.status)
}

// Sets the task of an id to a status that it then has, and tells it. The reply is made before the change.
fn set_and_tell(
    state: &mut State,
    alloc: Global,
    id: &TaskId,
    status: Status,
) -> Result<Reply, NoMemory>
    requires at_rest { is_running status ≡ false }
    requires retry_fits { state.old.moment.0 + state.old.settings.retry_delay < 2 ^ 64 }
    requires has_it { status_told id.now (set_status state.old id.now status) ≡ str (status_word status) }
    ensures { Comes state.old (settled id.now (set_status state.old id.now status)) state.new result }
{
    let reply = settled(alloc, id, Some(status))?;
    set(state, alloc, id, status)?;
    Ok(reply)
}
