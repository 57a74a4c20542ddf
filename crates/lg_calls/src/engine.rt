//! What makes the steps of the scheduler.
ghost use Rattle.std.specs.Prelude.{◌≡◌, ◌^◌, ◌<◌, IfOk, IfErr};
ghost use Rattle.lg_calls.specs.declared.state.State.{State};
ghost use Rattle.lg_calls.specs.Engine.{Steps};
ghost use Rattle.lg_calls.specs.Request.{IsInRange};
ghost use Rattle.lg_calls.specs.Valid.{IsValidState};

use crate::request::Request;
use crate::state::State;
use lg_base::{Moment, NoMemory};
use lg_json::Out;
use std::alloc::Global;

/// The reply to a request: what stands under `response`.
#[derive(Debug, Drop)]
pub struct Reply(pub Out);

/// Why a step wasn't made. The state is as before, its moment included.
#[derive(Clone, Copy, Debug, PartialEq, Eq)]
pub enum StepFault {
    /// The scheduler has so many tasks that those which the request would make pass its most, or numbers have run out for
    /// them.
    Full(u64),
    NoMemory,
}

impl From<NoMemory> for StepFault {
    ghost use Rattle.lg_calls.specs.declared.engine.StepFault.TheVariants.{NoMemory as out_of_memory};

    ghost from_gives = { λ _ fault. fault ≡ out_of_memory };

    fn from(_: NoMemory) -> StepFault {
        StepFault::NoMemory
    }
}

/// What makes the steps of the scheduler, one after another. It stands for a state, which is valid.
pub trait Engine: Send + Drop {
    /// The state that it stands for.
    ghost state: { Self → State };

    /// Begins with this state. Where there is no memory the state is handed back.
    fn start(alloc: Global, base: State) -> Result<Self, (State, NoMemory)>
        requires { IsValidState base }
        ensures ok { IfOk result (λ engine. state engine ≡ base) }
        ensures err { IfErr result (λ back. back.0 ≡ base) };

    /// Makes one step at a moment below 2^62 ms: the state moves on to the moment, if that is later, and the request does
    /// its work. After a fault the state is as before.
    fn step(&mut self, alloc: Global, now: Moment, request: &Request) -> Result<Reply, StepFault>
        requires in_time { now.0 < 2 ^ 62 }
        requires in_range { IsInRange request.now }
        ensures { Steps (state self.old) now.0 request.now (state self.new) result };

    /// The state, at the end. It takes no memory.
    fn finish(self) -> State
        ensures { result ≡ state self };

    /// The state is valid.
    ghost is_valid: { (engine : Self) → IsValidState (state engine) };
}
