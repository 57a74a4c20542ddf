ghost use Rattle.std.specs.Prelude.{◌≡◌};
ghost use Rattle.lg_target.specs.declared.fault.AsideFault.TheVariants as fault;

use lg_base::Failed;
use std::alloc::AllocError;
use std::error::Error;
use std::fmt;

/// Why no file aside was begun.
#[derive(Clone, Copy, Debug, PartialEq, Eq, Hash)]
pub enum AsideFault {
    /// The folder above the path was not made: the files' count of faults rose.
    Files,
    /// Memory ran out. The files were asked nothing.
    NoMemory,
}

impl fmt::Display for AsideFault {
    fn fmt<W: fmt::Write>(&self, f: &mut fmt::Formatter<W>) -> fmt::Result {
        f.write_str(match self {
            AsideFault::Files => "the folder was not made",
            AsideFault::NoMemory => "no memory",
        })
    }
}

impl Error for AsideFault {}

impl From<Failed> for AsideFault {
    ghost from_gives = { λ _ made. made ≡ fault.Files };

    fn from(_: Failed) -> AsideFault {
        AsideFault::Files
    }
}

impl From<AllocError> for AsideFault {
    ghost from_gives = { λ _ made. made ≡ fault.NoMemory };

    fn from(_: AllocError) -> AsideFault {
        AsideFault::NoMemory
    }
}
