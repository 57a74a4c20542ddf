//! Where `add_task` ends behind the touch of its worker.
ghost use Rattle.std.specs.Prelude.{◌≡◌, ◌+◌, nat_lt};
ghost use Rattle.std.specs.Option.{option_copied};
ghost use Rattle.lg_calls.specs.AddTask.Ending.{ends, is_cooling, is_shut_out};

use super::touching::is_disabled;
use crate::change::find_task;
use crate::rules::is_status;
use lg_base::Moment;
use lg_calls::{AddTask, Reported, State, Status, TaskRec};

/// Whether the step ends: the worker is disabled, and the task isn't RUNNING; or the task was done just now, and is
/// reported PENDING.
pub(crate) fn ends(ask: &AddTask, state: &State) -> bool
    ensures { result ≡ ends ask.now state.now }
{
    let tasks = state.tasks.as_slice();
    let found = find_task(tasks, &ask.task_id);
    let disabled = is_disabled(state.workers.as_slice(), &ask.worker);
    let cooldown = state.settings.stable_done_cooldown;
    is_shut_out(disabled, found) || is_cooling(cooldown, state.moment, ask.status, found)
}

// A disabled worker makes no task, and reports of one that is known only while it is RUNNING.
fn is_shut_out(disabled: bool, found: Option<&TaskRec>) -> bool
    ensures { result ≡ is_shut_out disabled (option_copied found.entry) }
{
    match found {
        None => disabled,
        Some(task) => disabled && !is_status(Status::Running, task.status),
    }
}

// A task that is done isn't taken for pending again before the cooldown has passed, in milliseconds.
fn is_cooling(cooldown: u64, now: Moment, status: Reported, found: Option<&TaskRec>) -> bool
    ensures { result ≡ is_cooling cooldown now status (option_copied found.entry) }
{
    match (status, found) {
        (Reported::Pending, Some(task)) => {
            is_status(Status::Done, task.status) && is_within(task.updated, cooldown, now)
        }
        _ => false,
    }
}

// Whether a moment is before another and a time behind it, in milliseconds.
fn is_within(since: Moment, time: u64, now: Moment) -> bool
    ensures { result ≡ nat_lt now.0 (since.0 + time) }
{
    now.0 < since.0 || now.0 - since.0 < time
}
