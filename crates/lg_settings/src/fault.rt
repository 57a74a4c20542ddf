ghost use Rattle.std.specs.Prelude.{◌≡◌, Some};
ghost use Rattle.lg_settings.specs.declared.fault.SettingsFault.TheVariants.{NoMemory as out_of_memory};
ghost use Rattle.lg_settings.specs.Faults.{fault_text};

use lg_base::NoMemory;
use std::alloc::AllocError;
use std::error::Error;
use std::fmt;

/// Why some bytes gave no settings.
#[derive(Clone, Copy, Debug, PartialEq, Eq, Hash)]
pub enum SettingsFault {
    /// The bytes are no settings file: they aren't UTF-8 or no TOML, or a known section or key is of another kind or out of
    /// its range.
    NotSettings,
    NoMemory,
}

impl fmt::Display for SettingsFault {
    ghost output = { λ fault. Some (fault_text fault) };

    fn fmt<W: fmt::Write>(&self, f: &mut fmt::Formatter<W>) -> fmt::Result {
        f.write_str(match self {
            SettingsFault::NotSettings => "no settings file",
            SettingsFault::NoMemory => "no memory",
        })
    }
}

impl Error for SettingsFault {}

impl From<AllocError> for SettingsFault {
    ghost from_gives = { λ _ fault. fault ≡ out_of_memory };

    fn from(_: AllocError) -> SettingsFault {
        SettingsFault::NoMemory
    }
}

impl From<NoMemory> for SettingsFault {
    ghost from_gives = { λ _ fault. fault ≡ out_of_memory };

    fn from(_: NoMemory) -> SettingsFault {
        SettingsFault::NoMemory
    }
}
