//! How many tasks each status has.
ghost use Rattle.std.specs.Prelude.{◌≡◌, ◌^◌, ◌<◌, IfOk};
ghost use Rattle.lg_calls.specs.Look.{CanBeLookedAt};
ghost use Rattle.lg_json.specs.Tree.{tree_of};
ghost use Rattle.lg_calls.specs.Views.Counts as view;
ghost use Rattle.lg_views.specs.Counts as spec;
ghost use Rattle.lg_views.specs.Listed.{CanBeListed};

use crate::builders::Object;
use lg_base::NoMemory;
use lg_calls::{Look, Status};
use lg_json::Out;
use std::alloc::Global;

/// How many tasks each status has.
#[derive(Clone, Copy)]
pub(crate) struct Counts {
    batch_running: u64,
    disabled: u64,
    done: u64,
    failed: u64,
    pending: u64,
    running: u64,
    unknown: u64,
}

/// An object of the seven statuses, each with the number of its tasks. Each task is looked at once. Refused only where there
/// is no memory.
pub fn status_counts<K: Look>(alloc: Global, state: &K) -> Result<Out, NoMemory>
    requires { CanBeListed (K.state state.now) }
    ensures { IfOk result (λ out. tree_of out ≡ view.status_counts (K.state state.now)) }
{
    let counts = counted(state);
    let mut object = Object::new(alloc);
    object.put("BATCH_RUNNING", &counts.batch_running)?;
    object.put("DISABLED", &counts.disabled)?;
    object.put("DONE", &counts.done)?;
    object.put("FAILED", &counts.failed)?;
    object.put("PENDING", &counts.pending)?;
    object.put("RUNNING", &counts.running)?;
    object.put("UNKNOWN", &counts.unknown)?;
    Ok(object.into_out())
}

fn counted<K: Look>(state: &K) -> Counts
    requires { CanBeLookedAt (K.state state.now) }
    ensures { result ≡ spec.counts_of (K.state state.now).tasks }
{
    let mut counts = Counts {
        batch_running: 0,
        disabled: 0,
        done: 0,
        failed: 0,
        pending: 0,
        running: 0,
        unknown: 0,
    };
    for place in 0..state.places() {
        match state.at(place) {
            None => continue,
            Some(task) => counts = with_one_more(counts, task.status),
        }
    }
    counts
}

fn with_one_more(counts: Counts, status: Status) -> Counts
    requires { spec.AreBelow (2 ^ 32) counts }
    ensures { result ≡ spec.with_one_more counts status }
{
    let mut counts = counts;
    match status {
        Status::BatchRunning => counts.batch_running += 1,
        Status::Disabled => counts.disabled += 1,
        Status::Done => counts.done += 1,
        Status::Failed => counts.failed += 1,
        Status::Pending => counts.pending += 1,
        Status::Running => counts.running += 1,
        Status::Unknown => counts.unknown += 1,
    }
    counts
}
