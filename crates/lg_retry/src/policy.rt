ghost use Rattle.std.specs.Prelude.{◌≡◌};
ghost use Rattle.lg_retry.specs.Failures.{is_inside_window};

use lg_base::Moment;

/// How many failures a task is allowed. The names are those of Luigi 3's settings. Any value is one: no sum wraps.
#[derive(Clone, Copy, Debug, Default, PartialEq, Eq, Hash)]
pub struct Policy {
    /// With this many failures inside the window a task has failed too often.
    pub retry_count: u64,
    /// How long a failure counts, in milliseconds. One that is exactly so long ago still counts.
    pub disable_window: u64,
    /// How long after its first failure a task has failed too often, whatever their number, in milliseconds.
    pub disable_hard_timeout: u64,
}

impl Policy {
    // Whether a failure at `moment` still counts at `now`.
    pub(crate) fn is_inside_window(&self, now: Moment, moment: Moment) -> bool
        ensures { result ≡ is_inside_window now self.now moment }
    {
        now.0.saturating_sub(self.disable_window) <= moment.0
    }
}
