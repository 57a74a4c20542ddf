//! One connection: its messages, answered one after another.
ghost use Rattle.std.specs.Prelude.{◌≡◌, false};
ghost use Rattle.lg_io.specs.Link.{LinkTold, fresh_link};
ghost use Rattle.lg_calls.specs.declared.state.State.{State};
ghost use Rattle.lg_desk.specs.Journal.{is_over, GoesOnBy};
ghost use Rattle.lg_desk.specs.Replay.{replay};
ghost use Rattle.luigid.specs.Serving.{Serves};

use crate::handle::{Place, handle};
use crate::hearing::{hear, speak, speak_bad_message};
use crate::life::Life;
use lg_calls::Engine;
use lg_http::{Next, Reader};
use lg_io::{Clock, Link};
use std::alloc::Global;
use std::sync::Wait;

/// Serves a link to its end, in a life that isn't over: each message is answered in order, until a last response, the end
/// of the input, a fault, or want of memory. It may wait forever.
pub fn serve_connection<R: Wait, E: Engine, L: Link, K: Clock>(
    rt: &R,
    alloc: Global,
    life: &mut Life<E>,
    lane: u16,
    connection: u64,
    link: &mut L,
    clock: &mut K,
)
    requires { is_over life.old.journal ≡ false }
    ensures serves { (base : State) → E.state life.old.engine ≡ replay base life.old.journal
        → record {
          received = L.received link.old;
          taken = L.taken link.old;
          read_faults = L.Source.faults link.old;
          write_faults = L.Sink.faults link.old;
        } ≡ fresh_link
        → Serves base lane connection life.old.journal life.new.journal (K.calls clock.old) (K.calls clock.new) record {
          received = L.received link.new;
          taken = L.taken link.new;
          read_faults = L.Source.faults link.new;
          write_faults = L.Sink.faults link.new;
        } }
    ensures goes_on { GoesOnBy lane life.old.journal life.new.journal }
    ensures replayed { (base : State) → E.state life.old.engine ≡ replay base life.old.journal → E.state life.new.engine ≡ replay base life.new.journal }
    ensures rest { K.rest clock.new ≡ K.rest clock.old }
{
    let Ok(mut reader) = Reader::make(alloc) else {
        return;
    };
    for nth in 0..u64::MAX {
        match hear(rt, alloc, &mut reader, link) {
            Next::Message(message) => {
                let place = Place {
                    lane,
                    connection,
                    nth,
                };
                let said = handle(alloc, life, place, &message, clock);
                let last = said.is_last(message.last);
                if speak(&said, last, link).is_err() {
                    return;
                }
                if last {
                    return;
                }
            }
            Next::Bad(status) => {
                let _ = speak_bad_message(status, link);
                return;
            }
            Next::End => return,
            Next::Torn => return,
            Next::Idle => return,
            Next::Failed => return,
            Next::NoMemory => return,
            Next::Quiet => unreachable!(),
        }
    }
    // More messages than a number of 64 bits counts: no run gets here.
    for _ in rt.forever() {}
    unreachable!()
}
