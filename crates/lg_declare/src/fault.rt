ghost use Rattle.std.specs.Prelude.{◌≡◌};
ghost use Rattle.lg_declare.specs.declared.fault.TemplateFault.TheVariants.{NoMemory};

use std::alloc::{AllocError, AllocFailed};
use std::error::Error;
use std::fmt;

/// Why a text is no template.
#[derive(Clone, Copy, Debug, PartialEq, Eq, Hash)]
pub enum TemplateFault {
    /// A brace has no partner, or a word between braces is no name that the template may use.
    BadTemplate,
    NoMemory,
}

impl fmt::Display for TemplateFault {
    fn fmt<W: fmt::Write>(&self, f: &mut fmt::Formatter<W>) -> fmt::Result {
        f.write_str(match self {
            TemplateFault::BadTemplate => "no template",
            TemplateFault::NoMemory => "no memory",
        })
    }
}

impl Error for TemplateFault {}

impl From<AllocError> for TemplateFault {
    ghost from_gives = { λ _ fault. fault ≡ NoMemory };

    fn from(_: AllocError) -> TemplateFault {
        TemplateFault::NoMemory
    }
}

impl<T: Drop> From<AllocFailed<T>> for TemplateFault {
    ghost from_gives = { λ _ fault. fault ≡ NoMemory };

    fn from(_: AllocFailed<T>) -> TemplateFault {
        TemplateFault::NoMemory
    }
}
