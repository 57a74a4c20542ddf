//! What each request does to the state, and its reply. A want of memory leaves the state as it was: all that a request needs is
//! made before its first change.
ghost use Rattle.std.specs.Prelude.{◌≡◌};
ghost use Rattle.lg_json.specs.Tree.{null, tree_of};
ghost use Rattle.lg_calls.specs.declared.request.Request.TheVariants as asked;
ghost use Rattle.lg_calls.specs.Pausing.{set_paused};
ghost use Rattle.lg_calls.specs.Request.{IsInRange};
ghost use Rattle.lg_calls.specs.Valid.{IsValidState};
ghost use Rattle.lg_plain.specs.Requests.{Applies};

mod limits;
mod replies;
mod settling;
mod work;
mod workers;

use crate::adding::add_task;
use lg_base::NoMemory;
use lg_calls::{AddTask, Reply, Request, State, StepFault};
use lg_json::Out;
use lg_views::laws::valid_states_can_be_listed;
use lg_views::{count_pending, fetch_error, resource_list, resources, status_counts, task_search};
use limits::{set_limit, set_limits};
use replies::yes_or_no;
use settling::{forgive_failures, mark_as_done};
use std::alloc::Global;
use work::get_work;
use workers::{add_worker, disable_worker, ping};

/// What a request does at the moment of the state, and its reply. A scheduler that is full, and a want of memory, leave the
/// state as it was.
pub(crate) fn apply(state: &mut State, alloc: Global, request: &Request) -> Result<Reply, StepFault>
    requires valid { IsValidState state.old }
    requires in_range { IsInRange request.now }
    ensures { Applies state.old request.now state.new result }
{
    valid_states_can_be_listed();
    match request {
        Request::AddTask(ask) => added(state, alloc, ask),
        Request::AddWorker(ask) => Ok(add_worker(state, alloc, ask)?),
        Request::AnnounceSchedulingFailure | Request::Stop => Ok(Reply(Out::Null)),
        Request::CountPending(ask) => Ok(Reply(count_pending(alloc, state, &ask.worker)?)),
        Request::DisableWorker(ask) => Ok(disable_worker(state, alloc, &ask.worker)?),
        Request::FetchError(ask) => Ok(Reply(fetch_error(alloc, state, &ask.task_id)?)),
        Request::ForgiveFailures(ask) => Ok(forgive_failures(state, alloc, &ask.task_id)?),
        Request::GetWork(ask) => Ok(get_work(state, alloc, ask)?),
        Request::HasTaskHistory => Ok(Reply(Out::Truth(false))),
        Request::IsPauseEnabled => Ok(yes_or_no(alloc, "enabled", state.settings.pause_enabled)?),
        Request::IsPaused => Ok(yes_or_no(alloc, "paused", state.paused)?),
        Request::MarkAsDone(ask) => Ok(mark_as_done(state, alloc, &ask.task_id)?),
        Request::Pause => Ok(set_paused(state, true)),
        Request::Ping(ask) => Ok(ping(state, alloc, &ask.worker)?),
        Request::ResourceList => Ok(Reply(resource_list(alloc, state)?)),
        Request::Resources => Ok(Reply(resources(alloc, state)?)),
        Request::StatusCounts => Ok(Reply(status_counts(alloc, state)?)),
        Request::TaskSearch(ask) => Ok(Reply(task_search(alloc, state, &ask.task_str)?)),
        Request::Unpause => Ok(set_paused(state, false)),
        Request::UpdateResource(ask) => Ok(set_limit(state, ask)?),
        Request::UpdateResources(ask) => Ok(set_limits(state, ask)?),
        // No call of another method is made, since none is built.
        _ => Err(StepFault::NoMemory),
    }
}

// A worker declares a task, or reports what became of one.
fn added(state: &mut State, alloc: Global, ask: &AddTask) -> Result<Reply, StepFault>
    requires valid { IsValidState state.old }
    requires in_range { IsInRange (asked.AddTask ask.now) }
    ensures { Applies state.old (asked.AddTask ask.now) state.new result }
{
    add_task(state, alloc, ask)?;
    Ok(Reply(Out::Null))
}

// The scheduler is paused or goes on, where its settings allow it. It takes no memory.
fn set_paused(state: &mut State, paused: bool) -> Reply
    ensures state { state.new ≡ set_paused paused state.old }
    ensures null { tree_of result.0 ≡ null }
{
    if state.settings.pause_enabled {
        state.paused = paused;
    }
    Reply(Out::Null)
}
