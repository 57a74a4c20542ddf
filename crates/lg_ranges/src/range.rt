ghost use Rattle.std.specs.Prelude.{◌↔◌, ◌^◌, ℤ, pos, ◌+ℤ◌, ◌-ℤ◌, ◌≤ℤ◌, ◌<ℤ◌, IfSome};
ghost use Rattle.lg_ranges.specs.Points.{ArePoints};
ghost use Rattle.lg_ranges.specs.Bounds.{IsFirstFrom};

use crate::{Ask, Period};
use lg_base::Moment;

/// The number of the first point, and the number behind the last; both are the same where there is none. A number is a
/// point where its day or hour begins at the start or later, not before `now` less `back`, before the stop, and before
/// `now` plus `forward`. This holds of any ask, also of one that `check` refuses. It takes no memory.
pub fn points(ask: &Ask) -> (i64, i64)
    ensures points { ArePoints ask.entry.now result }
    ensures few { (result.1 -ℤ result.0) <ℤ pos (2 ^ 33) }
{
    let now = first_from(ask.period, ask.now);
    let first = not_before(ask.start, now - i64::from(ask.back));
    let behind = up_to(ask.stop, now + i64::from(ask.forward));
    (first, behind.max(first))
}

/// The first day or hour that begins at a moment or later.
fn first_from(period: Period, moment: Moment) -> i64
    ensures first { IsFirstFrom period moment result }
    ensures from_1970 { pos 0 ≤ℤ result }
    ensures small { result <ℤ pos (2 ^ 62) }
{
    moment.0.div_ceil(period.milliseconds()) as i64
}

/// The lowest number that isn't below a bound, where there is one, nor below `lowest`.
fn not_before(start: Option<i64>, lowest: i64) -> i64
    ensures { (number : ℤ) → (result ≤ℤ number) ↔ (IfSome start (λ start. start ≤ℤ number) × (lowest ≤ℤ number)) }
{
    match start {
        None => lowest,
        Some(start) => start.max(lowest),
    }
}

/// The number below which lie those that are below a bound, where there is one, and below `highest`.
fn up_to(stop: Option<i64>, highest: i64) -> i64
    ensures { (number : ℤ) → (number <ℤ result) ↔ (IfSome stop (λ stop. number <ℤ stop) × (number <ℤ highest)) }
{
    match stop {
        None => highest,
        Some(stop) => stop.min(highest),
    }
}
