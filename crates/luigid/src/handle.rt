//! One message: its call, the moment, the step, and what is said to it.
ghost use Rattle.std.specs.Prelude.{◌≡◌, false};
ghost use Rattle.lg_http.specs.Answers.{Shows};
ghost use Rattle.lg_http.specs.Messages.{WholeMessage};
ghost use Rattle.lg_calls.specs.declared.state.State.{State};
ghost use Rattle.luigid.specs.Handling.{Handles};
ghost use Rattle.lg_desk.specs.Journal.{is_over, GoesOnBy};
ghost use Rattle.lg_desk.specs.Replay.{replay};
ghost use Rattle.luigid.specs.Said.{answer_of};
ghost use Rattle.luigid.specs.Transcript.{is_marked};

use crate::call::{Asked, read_call};
use crate::life::Life;
use crate::said::Said;
use lg_base::NoMemory;
use lg_calls::{Engine, StepFault};
use lg_desk::{CallName, Entry};
use lg_http::Message;
use lg_io::Clock;
use std::alloc::Global;

/// The place of a message: the lane, the connection among those of the lane, and the message among those of the
/// connection, each counted from 0.
#[derive(Clone, Copy, Debug, PartialEq, Eq)]
pub struct Place {
    pub lane: u16,
    pub connection: u64,
    pub nth: u64,
}

/// Handles a message, in a life that isn't over. The clock is read once, right before the call is entered, and for nothing
/// else.
pub fn handle<E: Engine, K: Clock>(
    alloc: Global,
    life: &mut Life<E>,
    place: Place,
    message: &Message,
    clock: &mut K,
) -> Said
    requires { is_over life.old.journal ≡ false }
    ensures handles { (base : State) (arrived : WholeMessage) → E.state life.old.engine ≡ replay base life.old.journal → Shows message.now arrived
        → Handles base place.lane place.connection place.nth arrived (answer_of result) life.old.journal life.new.journal
        (K.calls clock.old) (K.calls clock.new) }
    ensures replayed { (base : State) → E.state life.old.engine ≡ replay base life.old.journal → E.state life.new.engine ≡ replay base life.new.journal }
    ensures goes_on { GoesOnBy place.lane life.old.journal life.new.journal }
    ensures not_over { is_marked (answer_of result) ≡ false → is_over life.new.journal ≡ false }
    ensures rest { K.rest clock.new ≡ K.rest clock.old }
{
    let (request, size) = match read_call(alloc, message) {
        Ok(Asked::Call(request, size)) => (request, size),
        Ok(Asked::Nothing(reason)) => return Said::NotCalled(reason),
        Err(NoMemory) => return Said::NoMemory,
    };
    let now = clock.now();
    let entry = Entry {
        pass: u32::from(place.lane),
        who: CallName {
            lane: place.lane,
            connection: place.connection,
            nth: place.nth,
            size,
        },
        now,
        request,
    };
    match life.call(alloc, entry) {
        Ok(reply) => Said::Replied(reply, life.is_over()),
        Err(StepFault::Full(tasks)) => Said::Full(tasks, life.is_over()),
        Err(StepFault::NoMemory) => Said::NoMemory,
    }
}
