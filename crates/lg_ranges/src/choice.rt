ghost use Rattle.std.specs.Prelude.{◌≡◌, ◌+◌, ◌<◌, ◌^◌, pos, ◌+ℤ◌, ◌<ℤ◌, length, All, AllPairs, IfOk};
ghost use Rattle.lg_ranges.specs.Required.{AreRequired, ComesBefore, IsMissing, IsOnePerPoint, LeavesNoneOut, in_order, missing_points};

use crate::{Ask, points};
use lg_base::NoMemory;
use std::alloc::Global;

/// The first `limit` missing points, rising, or in reverse the last `limit`, falling. There is one truth value per
/// point, in the order of the points: whether it is missing. This holds of any ask, also of one that `check` refuses.
pub fn required(alloc: Global, ask: &Ask, missing: &[bool]) -> Result<Vec<i64>, NoMemory>
    requires { IsOnePerPoint ask.now missing.now }
    ensures list { IfOk result (λ required. AreRequired ask.entry.now missing.now required.items) }
    ensures missing { IfOk result (λ required. All (IsMissing ask.entry.now missing.now) required.items) }
    // So each stands once.
    ensures in_order { IfOk result (λ required. AllPairs (ComesBefore ask.entry.now.reverse) required.items) }
    ensures whole { IfOk result (λ required. LeavesNoneOut ask.entry.now missing.now required.items) }
{
    chosen(alloc, ask, missing)
}

fn chosen(alloc: Global, ask: &Ask, missing: &[bool]) -> Result<Vec<i64>, NoMemory>
    requires { IsOnePerPoint ask.now missing.now }
    ensures { IfOk result (λ chosen. AreRequired ask.entry.now missing.now chosen.items) }
{
    let (first, _) = points(ask);
    let mut chosen = turned(missing_from(alloc, first, missing)?, ask.reverse);
    chosen.truncate(ask.limit as usize);
    Ok(chosen)
}

/// The numbers, counted from `first` on, whose truth value is true.
fn missing_from(alloc: Global, first: i64, missing: &[bool]) -> Result<Vec<i64>, NoMemory>
    requires few { length missing.now < 2 ^ 34 }
    requires small { (first +ℤ pos (length missing.now)) <ℤ pos (2 ^ 63) }
    ensures { IfOk result (λ numbers. numbers.items ≡ missing_points first missing.now) }
{
    let mut numbers = Vec::new(alloc);
    for (place, is_missing) in missing.iter().enumerate() {
        if *is_missing {
            numbers.push(first + place as i64)?;
        }
    }
    Ok(numbers)
}

/// The numbers in the order asked for.
fn turned(mut numbers: Vec<i64>, reverse: bool) -> Vec<i64>
    ensures { result.items ≡ in_order reverse numbers.items }
{
    if reverse {
        numbers.reverse();
    }
    numbers
}
