ghost use Rattle.std.specs.Prelude.{◌≡◌};
ghost use Rattle.lg_declare.specs.Declaring.{Faults};
ghost use Rattle.lg_declare.specs.declared.declare_fault.DeclareFault.TheVariants.{UnknownKey, UnknownKind, UnknownFamily, BadValue, NoMemory};

use lg_base::{NoMemory, Text};
use std::alloc::{AllocError, AllocFailed, Global};
use std::error::Error;
use std::fmt;

/// Why a file declares no tasks: the first fault, with its text.
#[derive(Debug, Drop)]
pub enum DeclareFault {
    /// The file isn't TOML.
    NotToml,
    /// The key isn't in the tables.
    UnknownKey(Text),
    /// The word is none of `kind` or `batch`, or `csv` stands at a kind other than text.
    UnknownKind(Text),
    /// `requires` names a family that isn't declared.
    UnknownFamily(Text),
    /// The choice stands twice.
    DoubleName(Text),
    /// The text is no template: a brace has no partner, or a name is none that it may use.
    BadTemplate(Text),
    /// The value of this key is of another kind or range, or absent where it is required; or this is no name.
    BadValue(Text),
    NoMemory,
}

impl DeclareFault {
    pub(crate) fn unknown_key(alloc: Global, key: &str) -> DeclareFault
        ensures { Faults result (UnknownKey key.now) }
    {
        match Text::copied(alloc, key) {
            Ok(key) => DeclareFault::UnknownKey(key),
            Err(_) => DeclareFault::NoMemory,
        }
    }

    pub(crate) fn unknown_kind(alloc: Global, word: &str) -> DeclareFault
        ensures { Faults result (UnknownKind word.now) }
    {
        match Text::copied(alloc, word) {
            Ok(word) => DeclareFault::UnknownKind(word),
            Err(_) => DeclareFault::NoMemory,
        }
    }

    pub(crate) fn unknown_family(alloc: Global, task: &str) -> DeclareFault
        ensures { Faults result (UnknownFamily task.now) }
    {
        match Text::copied(alloc, task) {
            Ok(task) => DeclareFault::UnknownFamily(task),
            Err(_) => DeclareFault::NoMemory,
        }
    }

    pub(crate) fn bad_value(alloc: Global, key: &str) -> DeclareFault
        ensures { Faults result (BadValue key.now) }
    {
        match Text::copied(alloc, key) {
            Ok(key) => DeclareFault::BadValue(key),
            Err(_) => DeclareFault::NoMemory,
        }
    }
}

impl fmt::Display for DeclareFault {
    fn fmt<W: fmt::Write>(&self, f: &mut fmt::Formatter<W>) -> fmt::Result {
        match self {
            DeclareFault::NotToml => f.write_str("no TOML"),
            DeclareFault::UnknownKey(key) => write!(f, "unknown key {}", key.as_str()),
            DeclareFault::UnknownKind(word) => write!(f, "unknown kind {}", word.as_str()),
            DeclareFault::UnknownFamily(task) => write!(f, "unknown family {}", task.as_str()),
            DeclareFault::DoubleName(choice) => write!(f, "double name {}", choice.as_str()),
            DeclareFault::BadTemplate(text) => write!(f, "bad template {}", text.as_str()),
            DeclareFault::BadValue(key) => write!(f, "bad value {}", key.as_str()),
            DeclareFault::NoMemory => f.write_str("no memory"),
        }
    }
}

impl Error for DeclareFault {}

impl From<AllocError> for DeclareFault {
    ghost from_gives = { λ _ fault. fault ≡ NoMemory };

    fn from(_: AllocError) -> DeclareFault {
        DeclareFault::NoMemory
    }
}

impl<T: Drop> From<AllocFailed<T>> for DeclareFault {
    ghost from_gives = { λ _ fault. fault ≡ NoMemory };

    fn from(_: AllocFailed<T>) -> DeclareFault {
        DeclareFault::NoMemory
    }
}

impl From<NoMemory> for DeclareFault {
    ghost from_gives = { λ _ fault. fault ≡ NoMemory };

    fn from(_: NoMemory) -> DeclareFault {
        DeclareFault::NoMemory
    }
}
