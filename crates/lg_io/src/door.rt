ghost use Rattle.std.specs.Prelude.{◌≡◌, ℕ, ◌≤◌, Bool, ◌||◌, true, false, Option, Some, length, option_map, IfSome, IsTrue};
ghost use Rattle.lg_io.specs.declared.door.Accept.TheVariants.{Closed, Failed};
ghost use Rattle.lg_io.specs.Cause.{HasCause};
ghost use Rattle.lg_io.specs.Door.{DoorTold, closed, accept_kind, is_closing, accepted, told_done, IfConn, IsFresh, HasLinkOut, HasNoLinkOut};
ghost use Rattle.lg_io.specs.Rest.{of_door};

use crate::{Clock, Link};
use std::alloc::Global;

/// The answer of a door to `accept`.
#[derive(Drop)]
pub enum Accept<L> {
    /// The next link.
    Conn(L),
    /// No link came now.
    Quiet,
    /// No link comes any more, now and for good.
    Closed,
    /// The call failed.
    Failed,
    /// The door found no memory for a link.
    NoMemory,
}

/// What hands out links, each of which is to be handed back. It has a clock of its own.
pub trait Door: Clock + Send {
    /// A link that it hands out, in whatever thread the door is.
    type Conn: Link + Send;

    /// The kind of its last answer, how many links it handed out, and what the links that were handed back did,
    /// where it tells.
    ghost door: { Self → Option DoorTold };

    /// Whether it answered that it is closed.
    ghost is_closed: { Self → Bool };

    /// How many of its calls of `accept` met a fault.
    ghost faults: { Self → ℕ };

    /// The next link, if one came. Those that were handed out before have been handed back.
    fn accept(&mut self, alloc: Global) -> Accept<Self::Conn>
        requires { HasNoLinkOut (door self.old) }
        ensures told { door self.new ≡ option_map (accepted (accept_kind result)) (door self.old) }
        ensures fresh { IfConn result (λ link. IsFresh (door self.old) (record {
          received = Self.Conn.received link;
          taken = Self.Conn.taken link;
          read_faults = Self.Conn.Source.faults link;
          write_faults = Self.Conn.Sink.faults link;
        })) }
        ensures unended { IfConn result (λ link. Self.Conn.is_over link ≡ false) }
        ensures closed { IsTrue (is_closed self.old) → result ≡ Closed }
        ensures closes { is_closed self.new ≡ (is_closed self.old || is_closing (accept_kind result)) }
        ensures cause { HasCause (faults self.old) (faults self.new) (result ≡ Failed) }
        ensures calls { Self.calls self.new ≡ Self.calls self.old }
        ensures latest { Self.latest self.new ≡ Self.latest self.old };

    /// Takes a link back.
    fn done(&mut self, link: Self::Conn)
        requires { HasLinkOut (door self.old) }
        ensures told { door self.new ≡ told_done (record {
          received = Self.Conn.received link;
          taken = Self.Conn.taken link;
          read_faults = Self.Conn.Source.faults link;
          write_faults = Self.Conn.Sink.faults link;
        }) (door self.old) }
        ensures closed { is_closed self.new ≡ is_closed self.old }
        ensures faults { faults self.new ≡ faults self.old }
        ensures calls { Self.calls self.new ≡ Self.calls self.old }
        ensures latest { Self.latest self.new ≡ Self.latest self.old };

    /// A reading or a pause changes nothing of what the door tells.
    ghost clock_rest: { (d : Self) → Self.rest d ≡ of_door (door d) (faults d) (is_closed d) };

    /// Where it tells that its last answer was that it is closed, it is.
    ghost tells_its_close: { (d : Self) → IfSome (door d) (λ told. told.last ≡ Some closed → is_closed d ≡ true) };

    /// No more links are handed back than were handed out.
    ghost no_more_ended: { (d : Self) → IfSome (door d) (λ told. length told.ended ≤ told.handed) };
}
