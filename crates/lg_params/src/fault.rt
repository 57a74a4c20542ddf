ghost use Rattle.std.specs.Prelude.{◌≡◌, Some};
ghost use Rattle.lg_params.specs.Faults.{fault_text};
ghost use Rattle.lg_params.specs.declared.fault.ReadFault.TheVariants.{NoMemory};

use std::alloc::AllocError;
use std::error::Error;
use std::fmt;

/// Why a text gave no value of a kind.
#[derive(Clone, Copy, Debug, PartialEq, Eq, Hash)]
pub enum ReadFault {
    /// The text isn't of the kind's shape, or the day that it names is not in the calendar.
    BadText,
    /// The text is none of those that the kind declares.
    NotAChoice,
    /// The whole number is outside -2^63 to 2^63 - 1.
    OutOfRange,
    NoMemory,
}

impl fmt::Display for ReadFault {
    ghost output = { λ fault. Some (fault_text fault) };

    fn fmt<W: fmt::Write>(&self, f: &mut fmt::Formatter<W>) -> fmt::Result {
        f.write_str(match self {
            ReadFault::BadText => "a text of another kind",
            ReadFault::NotAChoice => "a text that is no choice",
            ReadFault::OutOfRange => "a number out of range",
            ReadFault::NoMemory => "no memory",
        })
    }
}

impl Error for ReadFault {}

impl From<AllocError> for ReadFault {
    ghost from_gives = { λ _ fault. fault ≡ NoMemory };

    fn from(_: AllocError) -> ReadFault {
        ReadFault::NoMemory
    }
}
