ghost use Rattle.std.specs.Prelude.{Some};
ghost use Rattle.lg_ranges.specs.Faults.{fault_text};

use std::error::Error;
use std::fmt;

/// Why no range is asked for. The first that applies counts, in this order.
#[derive(Clone, Copy, Debug, PartialEq, Eq, Hash)]
pub enum AskFault {
    /// Neither a start nor a stop.
    NoBounds,
    /// No start, and not the latest first.
    NeedsReverse,
    /// The start is behind the stop.
    StartAfterStop,
    /// No point is wanted.
    ZeroLimit,
}

impl fmt::Display for AskFault {
    ghost output = { λ fault. Some (fault_text fault) };

    fn fmt<W: fmt::Write>(&self, f: &mut fmt::Formatter<W>) -> fmt::Result {
        f.write_str(match self {
            AskFault::NoBounds => "neither a start nor a stop",
            AskFault::NeedsReverse => "no start, and not in reverse",
            AskFault::StartAfterStop => "the start is behind the stop",
            AskFault::ZeroLimit => "a limit of no points",
        })
    }
}

impl Error for AskFault {}
