ghost use Rattle.std.specs.Prelude.{◌≡◌, ℕ, ◌^◌, ◌<◌, None};
ghost use Rattle.lg_io.specs.Rest.{nothing};

use crate::Clock;
use crate::clock::moment_from;
use lg_base::Moment;
use std::time::{self, Duration};

/// The clock of the system. Where it goes back, or can't be read, the last moment stays.
#[derive(Drop)]
pub struct SystemClock<R> {
    runtime: R,
    latest: Moment,
    ghost below: { latest.0 < 2 ^ 62 },
}

impl<R: time::Clock> SystemClock<R> {
    /// The clock of this runtime.
    pub fn new(runtime: R) -> SystemClock<R>
        ensures { ⟦<SystemClock<R> as Clock>⟧.latest result ≡ 0 }
    {
        SystemClock {
            runtime,
            latest: Moment(0),
        }
    }
}

impl<R: time::Clock> Clock for SystemClock<R> {
    ghost calls = { λ _. None };

    ghost latest = { λ c. c.latest.0 };

    ghost rest = { λ _. nothing };

    fn now(&mut self) -> Moment {
        if let Ok(since) = self.runtime.since_1970() {
            let ms = u64::try_from(since.as_millis()).unwrap_or(u64::MAX);
            self.latest = moment_from(ms, self.latest);
        }
        self.latest
    }

    fn pause(&mut self, ms: u32) {
        self.runtime.sleep(Duration::from_millis(u64::from(ms)));
    }
}
