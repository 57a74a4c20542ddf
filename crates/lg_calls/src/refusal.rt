//! Why a call isn't made.
ghost use Rattle.std.specs.Prelude.{◌≡◌};
ghost use Rattle.lg_calls.specs.Refusal.{refusal_words, refusal_name};
ghost use Rattle.lg_calls.specs.declared.refusal.PayloadFault.TheVariants.{NoMemory as out_of_memory};

use lg_base::{Name, NoMemory};
use std::alloc::AllocError;
use std::marker::Model;

/// The name of the argument that a refusal speaks of. Contracts see its bytes.
#[derive(Debug, Drop)]
pub struct ArgumentName {
    name: Named,
}

#[derive(Debug, Drop)]
enum Named {
    /// A name that the method knows.
    Fixed(&'static str),
    /// A name that the client chose.
    Given(Name),
}

impl Model for ArgumentName {
    ghost use Rattle.std.specs.Prelude.{ℕ, List};

    ghost Value = { List ℕ };

    ghost use Rattle.lg_calls.specs.ArgumentName.{bytes_of};

    ghost view = { λ argument. bytes_of argument.name };
}

impl ArgumentName {
    /// A name that the method knows. It takes no memory.
    pub fn fixed(name: &'static str) -> ArgumentName
        ensures { result ≡ name.now }
    {
        ArgumentName {
            name: Named::Fixed(name),
        }
    }

    /// The name.
    pub fn as_str(&self) -> &str
        ensures { result.now ≡ self.now }
    {
        match &self.name {
            Named::Fixed(name) => name,
            Named::Given(name) => name.as_str(),
        }
    }
}

impl From<Name> for ArgumentName {
    ghost from_gives = { λ name argument. argument ≡ name };

    /// A name that the client chose. It takes no memory.
    fn from(name: Name) -> ArgumentName {
        ArgumentName {
            name: Named::Given(name),
        }
    }
}

/// Why a payload makes no call of its method: the first of these that applies, the arguments in the order in which the
/// method reads them.
#[derive(Debug, Drop)]
pub enum Refusal {
    /// The payload is no JSON object (RFC 8259).
    NotJson,
    /// The argument is absent or null.
    MissingArgument(ArgumentName),
    /// The argument is of another kind.
    WrongKind(ArgumentName),
    /// The argument is a number, or a word, that isn't in its range.
    OutOfRange(ArgumentName),
}

impl Refusal {
    /// The refusal in words, as two texts that stand one behind the other: fixed words, and the name of the argument. It takes no
    /// memory.
    pub fn words(&self) -> (&str, &str)
        ensures words { result.0.now ≡ refusal_words self.now }
        ensures name { result.1.now ≡ refusal_name self.now }
    {
        match self {
            Refusal::NotJson => ("bad json", ""),
            Refusal::MissingArgument(name) => ("missing ", name.as_str()),
            Refusal::WrongKind(name) => ("wrong kind ", name.as_str()),
            Refusal::OutOfRange(name) => ("out of range ", name.as_str()),
        }
    }
}

/// Why a payload gave no call.
#[derive(Debug, Drop)]
pub enum PayloadFault {
    Refused(Refusal),
    NoMemory,
}

impl From<AllocError> for PayloadFault {
    ghost from_gives = { λ _ fault. fault ≡ out_of_memory };

    fn from(_: AllocError) -> PayloadFault {
        PayloadFault::NoMemory
    }
}

impl From<NoMemory> for PayloadFault {
    ghost from_gives = { λ _ fault. fault ≡ out_of_memory };

    fn from(_: NoMemory) -> PayloadFault {
        PayloadFault::NoMemory
    }
}
