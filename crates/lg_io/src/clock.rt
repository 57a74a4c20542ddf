ghost use Rattle.std.specs.Prelude.{◌≡◌, ℕ, ◌^◌, ◌<◌, ◌≤◌, ◌-◌, min, max, List, [], ◌∷◌, Option};
ghost use Rattle.lg_io.specs.Clock.{ClockCall, reading, pause};
ghost use Rattle.lg_io.specs.Rest.{Rest};
ghost use Rattle.lg_io.specs.Tells.{TellsOn};

use lg_base::Moment;

/// What tells the time, in whole milliseconds. Its moments never fall and are below 2^62.
pub trait Clock {
    /// The readings with their moments and the pauses, in order, while it tells them.
    ghost calls: { Self → Option (List ClockCall) };

    /// The last moment that it gave, or 0.
    ghost latest: { Self → ℕ };

    /// What the object tells beside this trait.
    ghost rest: { Self → Rest };

    /// The present moment.
    fn now(&mut self) -> Moment
        ensures bound { result.0 < 2 ^ 62 }
        ensures later { latest self.old ≤ result.0 }
        ensures latest { latest self.new ≡ result.0 }
        ensures told { TellsOn (calls self.old) (calls self.new) (reading result.0 ∷ []) }
        ensures rest { rest self.new ≡ rest self.old };

    /// Lets so many milliseconds pass.
    fn pause(&mut self, ms: u32)
        ensures latest { latest self.new ≡ latest self.old }
        ensures told { TellsOn (calls self.old) (calls self.new) (pause ms ∷ []) }
        ensures rest { rest self.new ≡ rest self.old };
}

/// The moment of a clock that reads so many milliseconds: not before the last one, and below 2^62.
pub(crate) fn moment_from(ms: u64, latest: Moment) -> Moment
    requires { latest.0 < 2 ^ 62 }
    ensures { result.0 ≡ max (min ms (2 ^ 62 - 1)) latest.0 }
{
    Moment(ms.min((1 << 62) - 1).max(latest.0))
}
