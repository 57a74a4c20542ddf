ghost use Rattle.std.specs.Prelude.{◌≡◌, ◌+◌, ◌^◌, ◌<◌, ◌≤◌, option_map, Some, ◌∷◌, [], length, vec_len, vec_capacity, IsTrue, IsFalse, ◌||◌, false, map, IfSome, refl};
ghost use Rattle.std.specs.VecDeque.{deque_len};
ghost use Rattle.lg_io.specs.Cause.{HasCause};
ghost use Rattle.lg_io.specs.Clock.{reading, pause};
ghost use Rattle.lg_io.specs.Door.{unused_door};
ghost use Rattle.lg_io.specs.Tells.{TellsOn};

use super::{ClockEvent, FaultPlan, MemoryClock, MemoryLink};
use crate::{Accept, Clock, Door};
use lg_base::Moment;
use std::alloc::Global;
use std::collections::VecDeque;

/// What a door in memory does at an `accept` that doesn't fail.
#[derive(Drop)]
pub enum Visit<P> {
    /// It hands out this link, begun anew.
    Conn(MemoryLink<P>),
    /// No link comes now.
    Quiet,
}

/// The kind of an answer of `accept`.
#[derive(Clone, Copy, Debug)]
pub enum Answer {
    Conn,
    Quiet,
    Closed,
    Failed,
    NoMemory,
}

/// A door that hands out the links of its visits, and is closed behind the last. It keeps the links that came back; a
/// link for whose return it finds no memory stays its next visit.
#[derive(Drop)]
pub struct MemoryDoor<P> {
    visits: VecDeque<Visit<P>>,
    clock: MemoryClock,
    plan: P,
    last: Option<Answer>,
    handed: usize,
    ended: Vec<MemoryLink<P>>,
    ghost fits: { handed + deque_len visits < 2 ^ 64 },
    ghost back: { vec_len ended ≤ handed },
    ghost room: { handed ≤ vec_capacity ended },
}

impl<P: FaultPlan> MemoryDoor<P> {
    ghost use Rattle.lg_io.specs.MemoryClock.{clock_log, clock_calls, clock_latest, moments_ahead};
    ghost use Rattle.lg_io.specs.MemoryDoor.{door_told, door_closed, door_faults, door_script, door_clock, link_did};

    /// A door with these visits and this clock. The plan names the calls of `accept` that fail.
    pub fn new(alloc: Global, visits: Vec<Visit<P>>, clock: MemoryClock, plan: P) -> MemoryDoor<P>
        ensures door { door_told P.faults result ≡ Some unused_door }
        ensures faults { door_faults P.faults result ≡ P.faults plan }
        ensures clock { door_clock result ≡ clock }
        ensures due { door_script P.due result ≡ record { visits = visits.items; fails = P.due plan } }
        ensures script { door_script P.script result
            ≡ record { visits = visits.items; fails = P.script plan } }
    {
        MemoryDoor {
            visits: VecDeque::from_vec(visits),
            clock,
            plan,
            last: None,
            handed: 0,
            ended: Vec::new(alloc),
        }
    }

    /// Begins anew with the visits that are left, as if it had not been called.
    pub fn restart(&mut self)
        ensures door { door_told P.faults self.new ≡ Some unused_door }
        ensures faults { door_faults P.faults self.new ≡ 0 }
        ensures calls { clock_calls (door_clock self.new) ≡ Some [] }
        ensures latest { clock_latest (door_clock self.new) ≡ clock_latest (door_clock self.old) }
        ensures moments { moments_ahead (door_clock self.new) ≡ moments_ahead (door_clock self.old) }
        ensures room { (clock_log (door_clock self.old)).room ≤ (clock_log (door_clock self.new)).room }
        ensures due { door_script P.due self.new ≡ door_script P.script self.old }
        ensures script { door_script P.script self.new ≡ door_script P.script self.old }
        ensures closed { door_closed self.new ≡ false }
    {
        self.last = None;
        self.handed = 0;
        self.ended.clear();
        self.plan.restart();
        self.clock.restart();
    }

    /// How many of its calls of `accept` failed.
    pub fn fault_count(&self) -> u64
        ensures { result ≡ door_faults P.faults self.now }
    {
        self.plan.fault_count()
    }

    /// The calls of its clock, while they are told.
    pub fn clock_calls(&self) -> Option<&[ClockEvent]>
        ensures { option_map (λ s. s.now) result ≡ (clock_log (door_clock self.now)).told }
    {
        self.clock.calls()
    }

    /// The links that came back, in order.
    pub fn ended(&self) -> &[MemoryLink<P>]
        ensures { IfSome (door_told P.faults self.now)
            (λ told. map (link_did P.faults) result.now ≡ told.ended) }
    {
        self.ended.as_slice()
    }
}

impl<P: FaultPlan> Clock for MemoryDoor<P> {
    ghost use Rattle.lg_io.specs.MemoryClock.{clock_calls, clock_latest, GivesNext, PausesFor};
    ghost use Rattle.lg_io.specs.MemoryDoor.{door_rest, door_script, door_clock};

    ghost calls = { λ d. clock_calls (door_clock d) };

    ghost latest = { λ d. clock_latest (door_clock d) };

    ghost rest = { door_rest P.faults };

    fn now(&mut self) -> Moment
        ensures bound { result.0 < 2 ^ 62 }
        ensures later { clock_latest (door_clock self.old) ≤ result.0 }
        ensures latest { clock_latest (door_clock self.new) ≡ result.0 }
        ensures told { TellsOn (clock_calls (door_clock self.old)) (clock_calls (door_clock self.new))
            (reading result.0 ∷ []) }
        ensures rest { door_rest P.faults self.new ≡ door_rest P.faults self.old }
        ensures follows { GivesNext (door_clock self.old) (door_clock self.new) result }
        ensures due { door_script P.due self.new ≡ door_script P.due self.old }
        ensures script { door_script P.script self.new ≡ door_script P.script self.old }
    {
        self.clock.now()
    }

    fn pause(&mut self, ms: u32)
        ensures latest { clock_latest (door_clock self.new) ≡ clock_latest (door_clock self.old) }
        ensures told { TellsOn (clock_calls (door_clock self.old)) (clock_calls (door_clock self.new))
            (pause ms ∷ []) }
        ensures rest { door_rest P.faults self.new ≡ door_rest P.faults self.old }
        ensures follows { PausesFor (door_clock self.old) (door_clock self.new) ms }
        ensures due { door_script P.due self.new ≡ door_script P.due self.old }
        ensures script { door_script P.script self.new ≡ door_script P.script self.old }
    {
        self.clock.pause(ms);
    }
}

impl<P: FaultPlan + Send> Door for MemoryDoor<P> {
    ghost use Rattle.lg_io.specs.declared.door.Accept.TheVariants.{Closed, Failed};
    ghost use Rattle.lg_io.specs.Door.{closed_by, accept_kind, accepted, is_closing, told_done, IfConn, IsFresh, HasLinkOut};
    ghost use Rattle.lg_io.specs.MemoryDoor.{door_told, door_closed, door_faults, door_script, door_clock, link_did, link_told, AcceptsByScript};
    ghost use Rattle.lg_io.specs.MemorySource.{source_over};
    ghost use Rattle.std.proofs.Common.{refl, ap, arith};
    ghost use Rattle.std.proofs.lemmas.List.{length-map};

    type Conn = MemoryLink<P>;

    ghost door = { door_told P.faults };

    ghost is_closed = { door_closed };

    ghost faults = { door_faults P.faults };

    fn accept(&mut self, alloc: Global) -> Accept<MemoryLink<P>>
        ensures told { door_told P.faults self.new
            ≡ option_map (accepted (accept_kind result)) (door_told P.faults self.old) }
        ensures fresh { IfConn result (λ link.
            IsFresh (door_told P.faults self.old) (link_told P.faults link)) }
        ensures unended { IfConn result (λ link. source_over link.source ≡ false) }
        ensures closed { IsTrue (door_closed self.old) → result ≡ Closed }
        ensures closes { door_closed self.new ≡ (door_closed self.old || is_closing (accept_kind result)) }
        ensures cause { HasCause (door_faults P.faults self.old) (door_faults P.faults self.new) (result ≡ Failed) }
        ensures clock { door_clock self.new ≡ door_clock self.old }
        ensures stays { IsTrue (door_closed self.old) →
            door_script P.due self.new ≡ door_script P.due self.old }
        ensures follows { IsFalse (door_closed self.old) →
            AcceptsByScript P.due P.script (door_script P.due self.old) (door_script P.due self.new) result }
        ensures script { (door_script P.script self.new).fails ≡ (door_script P.script self.old).fails }
    {
        if let Some(Answer::Closed) = self.last {
            return Accept::Closed;
        }
        if self.plan.is_due() {
            self.last = Some(Answer::Failed);
            return Accept::Failed;
        }
        match self.visits.pop_front() {
            Some(Visit::Conn(mut link)) => {
                let room = self.handed - self.ended.len() + 1;
                if self.ended.reserve(room).is_err() {
                    self.visits.push_front_reserved(Visit::Conn(link));
                    self.last = Some(Answer::NoMemory);
                    return Accept::NoMemory;
                }
                link.restart();
                self.handed += 1;
                self.last = Some(Answer::Conn);
                Accept::Conn(link)
            }
            Some(Visit::Quiet) => {
                self.last = Some(Answer::Quiet);
                Accept::Quiet
            }
            None => {
                self.last = Some(Answer::Closed);
                Accept::Closed
            }
        }
    }

    fn done(&mut self, link: MemoryLink<P>)
        requires { HasLinkOut (door_told P.faults self.old) }
        ensures told { door_told P.faults self.new
            ≡ told_done (link_told P.faults link) (door_told P.faults self.old) }
        ensures closed { door_closed self.new ≡ door_closed self.old }
        ensures faults { door_faults P.faults self.new ≡ door_faults P.faults self.old }
        ensures clock { door_clock self.new ≡ door_clock self.old }
        ensures due { door_script P.due self.new ≡ door_script P.due self.old }
        ensures script { door_script P.script self.new ≡ door_script P.script self.old }
    {
        self.ended.push_reserved(link);
    }

    ghost clock_rest = { λ d. refl };

    ghost tells_its_close = { λ d is. ap closed_by is };

    ghost no_more_ended = { λ d. Prim.omega (arith, length-map d.ended.items (link_did P.faults), d.back, d.ended.ok.0) };
}
