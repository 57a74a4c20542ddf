//! The steps of the scheduler: the moment and the pruning first, then the request.
ghost use Rattle.std.specs.Prelude.{◌≡◌, ◌^◌, ◌<◌};
ghost use Rattle.lg_calls.specs.Engine.{Steps};
ghost use Rattle.lg_calls.specs.Pruning.{asks_for_pruning, is_due, pruned_if_due};
ghost use Rattle.lg_calls.specs.Request.{IsInRange};
ghost use Rattle.lg_calls.specs.Step.{begun};
ghost use Rattle.lg_calls.specs.Valid.{IsValidState};

use crate::laws;
use crate::requests::apply;
use lg_base::Moment;
use lg_calls::{Reply, Request, Settings, State, StepFault};
use std::alloc::Global;

// The time between two prunings, in milliseconds.
const PRUNE_INTERVAL: u64 = 60_000;

/// One step at a moment. A scheduler that is full, and a want of memory, leave the state as it was, its moment included.
pub(crate) fn step(
    state: &mut State,
    alloc: Global,
    now: Moment,
    request: &Request,
) -> Result<Reply, StepFault>
    requires valid { IsValidState state.old }
    requires in_time { now.0 < 2 ^ 62 }
    requires in_range { IsInRange request.now }
    ensures { Steps state.old now.0 request.now state.new result }
{
    let moment = state.moment;
    let pruned = state.pruned;
    begin(state, now, request);
    let outcome = apply(state, alloc, request);
    if outcome.is_err() {
        state.moment = moment;
        state.pruned = pruned;
    }
    outcome
}

// The state moves on to the moment, if that is later, and is pruned if that is due.
fn begin(state: &mut State, now: Moment, request: &Request)
    requires valid { IsValidState state.old }
    requires in_time { now.0 < 2 ^ 62 }
    ensures begun { state.new ≡ begun state.old now.0 request.now }
    ensures valid { IsValidState state.new }
{
    let now = Moment(state.moment.0.max(now.0));
    let pruned = pruned_at(state, now, request);
    state.moment = now;
    state.pruned = pruned;
}

// The moment of the last pruning, behind a step at `now`.
fn pruned_at(state: &State, now: Moment, request: &Request) -> Option<Moment>
    requires { now.0 < 2 ^ 62 }
    ensures { result ≡ (pruned_if_due state.now now.0 request.now).pruned }
{
    match state.pruned {
        Some(last) if !is_due(last, now, &state.settings, request) => Some(last),
        _ => Some(now),
    }
}

// Whether a step prunes: the interval has passed since the last pruning, or the request asks for it.
fn is_due(last: Moment, now: Moment, settings: &Settings, request: &Request) -> bool
    requires { now.0 < 2 ^ 62 }
    ensures { result ≡ is_due last now.0 (asks_for_pruning settings.now request.now) }
{
    let asked = match request {
        Request::Prune => true,
        Request::GetWork(_) => settings.prune_on_get_work,
        _ => false,
    };
    asked || now.0 >= last.0.saturating_add(PRUNE_INTERVAL)
}
