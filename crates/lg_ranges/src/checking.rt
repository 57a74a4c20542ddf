ghost use Rattle.std.specs.Prelude.{◌≡◌};
ghost use Rattle.std.specs.Result.{result_err};
ghost use Rattle.lg_ranges.specs.Refusing.{fault_of};

use crate::{Ask, AskFault};

/// Whether a range is asked for: the first refusal that applies, in the order of `AskFault`. It takes no memory.
pub fn check(ask: &Ask) -> Result<(), AskFault>
    ensures { result_err result ≡ fault_of ask.entry.now }
{
    match (ask.start, ask.stop) {
        (None, None) => Err(AskFault::NoBounds),
        (None, Some(_)) if !ask.reverse => Err(AskFault::NeedsReverse),
        (Some(start), Some(stop)) if start > stop => Err(AskFault::StartAfterStop),
        _ if ask.limit == 0 => Err(AskFault::ZeroLimit),
        _ => Ok(()),
    }
}
