//! An engine for tests: it sets the limits of resources, and ends a life. To any other request it finds no memory.
ghost use Rattle.std.specs.Prelude.{◌≡◌, ◌^◌, ◌<◌, IsTrue, Some, IfOk, OnErr};
ghost use Rattle.lg_json.specs.Tree.{tree_of};
ghost use Rattle.lg_calls.specs.Outcome.{replied};
ghost use Rattle.lg_calls.specs.declared.state.State.{State};
ghost use Rattle.lg_calls.specs.Pruning.{asks_for_pruning, is_due, pruned_if_due};
ghost use Rattle.lg_calls.specs.Methods.UpdateResource.{limit_set, update_resource_in_range};
ghost use Rattle.lg_calls.specs.Request.{IsInRange};
ghost use Rattle.lg_calls.specs.Step.{applied};
ghost use Rattle.lg_calls.specs.Valid.{IsValidState};
ghost use Rattle.lg_calls.specs.ValidOnce.{valid_state-prop};

use lg_base::{Amounts, Moment, NoMemory};
use lg_calls::{Engine, Reply, Request, Settings, State, StepFault, UpdateResource};
use lg_json::Out;
use std::alloc::Global;

/// The time between two prunings, in milliseconds.
const PRUNE_INTERVAL: u64 = 60_000;

/// An engine that keeps the state as it is.
#[derive(Drop)]
pub struct Limits {
    state: State,
    pub ghost is_valid: { IsValidState state } by { valid_state-prop state },
}

impl Engine for Limits {
    ghost state = { λ engine. engine.state };

    fn start(_alloc: Global, base: State) -> Result<Limits, (State, NoMemory)> {
        Ok(Limits { state: base })
    }

    fn step(&mut self, _alloc: Global, now: Moment, request: &Request) -> Result<Reply, StepFault> {
        let now = Moment(self.state.moment.0.max(now.0));
        let pruned = pruned_at(&self.state, now, request);
        let reply = apply(&mut self.state.limits, request)?;
        self.state.moment = now;
        self.state.pruned = pruned;
        Ok(reply)
    }

    fn finish(self) -> State {
        let Limits { state } = self;
        state
    }

    ghost is_valid = { λ engine. engine.is_valid };
}

/// What a request does to the limits, and its reply. Where memory runs out they are as before.
fn apply(limits: &mut Amounts, request: &Request) -> Result<Reply, NoMemory>
    requires { IsInRange request.now }
    ensures ok { IfOk result (λ reply. (state : State) → state.limits ≡ limits.old
        → applied state request.now ≡ (record state { limits = limits.new }, replied (tree_of reply.0))) }
    ensures err { OnErr result (limits.new ≡ limits.old) }
{
    match request {
        Request::UpdateResource(ask) => set(limits, ask),
        Request::Stop => Ok(Reply(Out::Null)),
        // Not built.
        _ => Err(NoMemory),
    }
}

/// Sets a limit; one below 0 isn't set.
fn set(limits: &mut Amounts, ask: &UpdateResource) -> Result<Reply, NoMemory>
    requires { IsTrue (update_resource_in_range ask.now) }
    ensures ok { IfOk result (λ reply. (state : State) → state.limits ≡ limits.old
        → limit_set state ask.now.resource ask.now.amount ≡ (record state { limits = limits.new }, replied (tree_of reply.0))) }
    ensures err { OnErr result (limits.new ≡ limits.old) }
{
    match u32::try_from(ask.amount) {
        Ok(amount) => {
            limits.put(ask.resource.clone()?, amount)?;
            Ok(Reply(Out::Truth(true)))
        }
        Err(_) => Ok(Reply(Out::Truth(false))),
    }
}

/// The moment of the last pruning, behind a step at `now`.
fn pruned_at(state: &State, now: Moment, request: &Request) -> Option<Moment>
    requires { now.0 < 2 ^ 62 }
    ensures { result ≡ (pruned_if_due state.now now.0 request.now).pruned }
{
    match state.pruned {
        Some(last) if !is_due(last, now, &state.settings, request) => Some(last),
        _ => Some(now),
    }
}

/// Whether a step prunes: the interval has passed since the last pruning, or the request asks for it.
fn is_due(last: Moment, now: Moment, settings: &Settings, request: &Request) -> bool
    requires { now.0 < 2 ^ 62 }
    ensures { result ≡ is_due last now.0 (asks_for_pruning settings.now request.now) }
{
    let asked = match request {
        Request::Prune => true,
        Request::GetWork(_) => settings.prune_on_get_work,
        _ => false,
    };
    asked || now.0 >= last.0.saturating_add(PRUNE_INTERVAL)
}
