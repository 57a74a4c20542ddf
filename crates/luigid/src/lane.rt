//! One lane: the links of a door, served one after another.
ghost use Rattle.std.specs.Prelude.{◌≡◌, ◌≢◌, [], All, option_map};
ghost use Rattle.lg_io.specs.declared.door.Accept.TheVariants.{Quiet, Failed};
ghost use Rattle.lg_io.specs.Cause.{HasCause};
ghost use Rattle.lg_io.specs.Door.{accept_kind, accepted, IfConn, IsFresh, HasNoLinkOut};
ghost use Rattle.lg_io.specs.DoorSeen.{DoorSeen};
ghost use Rattle.lg_io.specs.Link.{LinkTold};
ghost use Rattle.lg_desk.specs.Replay.{replay};
ghost use Rattle.luigid.specs.declared.audit.LifeEnd.TheVariants.{Doors};
ghost use Rattle.luigid.specs.Headline.{EndsBy, HasLane};

use crate::audit::LifeEnd;
use crate::connection::serve_connection;
use crate::life::Life;
use lg_calls::Engine;
use lg_io::{Accept, Door};
use std::alloc::Global;
use std::sync::Wait;

/// Serves the links of a door, one after another, in a life that begins, until it is over, or the door closes, fails or
/// finds no memory. The door may have served others before. It may wait forever.
pub fn serve_lane<R: Wait, E: Engine, D: Door>(
    rt: &R,
    alloc: Global,
    life: &mut Life<E>,
    lane: u16,
    door: &mut D,
) -> LifeEnd
    requires begun { life.old.journal ≡ [] }
    requires all_back { HasNoLinkOut (D.door door.old) }
    ensures served { HasLane (E.state life.old.engine) lane result life.new.journal
        record { door = D.door door.old; faults = D.faults door.old; calls = D.calls door.old }
        record { door = D.door door.new; faults = D.faults door.new; calls = D.calls door.new } }
    ensures replayed { E.state life.new.engine ≡ replay (E.state life.old.engine) life.new.journal }
    ensures ends { EndsBy result life.new.journal }
    ensures failed { HasCause (D.faults door.old) (D.faults door.new) (result ≡ Doors) }
    ensures no_other { All (λ e. e.pass ≡ lane) life.new.journal }
{
    for connection in 0..u64::MAX {
        if life.is_stopped() {
            return LifeEnd::Stop;
        }
        if life.is_over() {
            return LifeEnd::Full;
        }
        match next_link(rt, alloc, door) {
            Accept::Conn(mut link) => {
                serve_connection(rt, alloc, life, lane, connection, &mut link, door);
                door.done(link);
            }
            Accept::Closed => return LifeEnd::Closed,
            Accept::Failed => return LifeEnd::Doors,
            Accept::NoMemory => return LifeEnd::Memory,
            Accept::Quiet => unreachable!(),
        }
    }
    // More links than a number of 64 bits counts: no run gets here.
    for _ in rt.forever() {}
    unreachable!()
}

/// The next answer of a door that isn't quiet. It may wait for it forever.
fn next_link<R: Wait, D: Door>(rt: &R, alloc: Global, door: &mut D) -> Accept<D::Conn>
    requires all_back { HasNoLinkOut (D.door door.old) }
    ensures loud { result ≢ Quiet }
    ensures told { D.door door.new ≡ option_map (accepted (accept_kind result)) (D.door door.old) }
    ensures fresh { IfConn result (λ link. IsFresh (D.door door.old) record {
      received = D.Conn.received link;
      taken = D.Conn.taken link;
      read_faults = D.Conn.Source.faults link;
      write_faults = D.Conn.Sink.faults link;
    }) }
    ensures cause { HasCause (D.faults door.old) (D.faults door.new) (result ≡ Failed) }
    ensures calls { D.calls door.new ≡ D.calls door.old }
{
    for _ in rt.forever() {
        match door.accept(alloc) {
            Accept::Quiet => {}
            next => return next,
        }
    }
    unreachable!()
}
