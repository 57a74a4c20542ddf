ghost use Rattle.std.specs.Prelude.{◌≡◌, ◌^◌, ◌<◌, ◌≤◌, option_map, Some, ◌∷◌, [], IfOk};
ghost use Rattle.lg_io.specs.Clock.{reading, pause};
ghost use Rattle.lg_io.specs.Rest.{nothing};
ghost use Rattle.lg_io.specs.Tells.{TellsOn};

use super::CallList;
use crate::Clock;
use crate::clock::moment_from;
use lg_base::{Moment, NoMemory};
use std::alloc::Global;
use std::collections::VecDeque;

/// A call of a clock.
#[derive(Clone, Copy, Debug, PartialEq, Eq)]
pub enum ClockEvent {
    /// A reading gave this moment.
    Reading(Moment),
    /// So many milliseconds were let pass.
    Pause(u32),
}

/// A clock that gives the moments of a list, one a reading. One that is before the moment given last, or not below
/// 2^62, is brought within; behind the list the last moment stays.
#[derive(Drop)]
pub struct MemoryClock {
    moments: VecDeque<Moment>,
    latest: Moment,
    calls: CallList<ClockEvent>,
    ghost below: { latest.0 < 2 ^ 62 },
}

impl MemoryClock {
    ghost use Rattle.lg_io.specs.MemoryClock.{clock_log, clock_calls, clock_latest, moments_ahead, milliseconds};

    /// A clock with room for so many readings and pauses; past it the clock tells nothing of them.
    pub fn new(alloc: Global, moments: Vec<Moment>, room: usize) -> Result<MemoryClock, NoMemory>
        ensures calls { IfOk result (λ c. clock_calls c ≡ Some []) }
        ensures latest { IfOk result (λ c. clock_latest c ≡ 0) }
        ensures ahead { IfOk result (λ c. moments_ahead c ≡ milliseconds moments.items) }
        ensures room { IfOk result (λ c. (clock_log c).room ≡ room) }
    {
        Ok(MemoryClock {
            moments: VecDeque::from_vec(moments),
            latest: Moment(0),
            calls: CallList::with_room(alloc, room)?,
        })
    }

    /// Begins anew, as if it had not been called; its moments go on.
    pub fn restart(&mut self)
        ensures calls { clock_calls self.new ≡ Some [] }
        ensures latest { clock_latest self.new ≡ clock_latest self.old }
        ensures ahead { moments_ahead self.new ≡ moments_ahead self.old }
        ensures room { (clock_log self.old).room ≤ (clock_log self.new).room }
    {
        self.calls.restart();
    }

    /// The readings and pauses, while they are told.
    pub fn calls(&self) -> Option<&[ClockEvent]>
        ensures { option_map (λ s. s.now) result ≡ (clock_log self.now).told }
    {
        self.calls.told()
    }
}

impl Clock for MemoryClock {
    ghost use Rattle.lg_io.specs.MemoryClock.{clock_calls, clock_latest, GivesNext, PausesFor};

    ghost calls = { clock_calls };

    ghost latest = { clock_latest };

    ghost rest = { λ _. nothing };

    fn now(&mut self) -> Moment
        ensures bound { result.0 < 2 ^ 62 }
        ensures later { clock_latest self.old ≤ result.0 }
        ensures latest { clock_latest self.new ≡ result.0 }
        ensures told { TellsOn (clock_calls self.old) (clock_calls self.new) (reading result.0 ∷ []) }
        ensures follows { GivesNext self.old self.new result }
    {
        let given = self.moments.pop_front().unwrap_or(self.latest);
        let moment = moment_from(given.0, self.latest);
        self.latest = moment;
        self.calls.add(ClockEvent::Reading(moment));
        moment
    }

    fn pause(&mut self, ms: u32)
        ensures latest { clock_latest self.new ≡ clock_latest self.old }
        ensures told { TellsOn (clock_calls self.old) (clock_calls self.new) (pause ms ∷ []) }
        ensures follows { PausesFor self.old self.new ms }
    {
        self.calls.add(ClockEvent::Pause(ms));
    }
}
