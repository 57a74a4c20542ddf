//! Why a state was not saved, or none was loaded.
ghost use Rattle.std.specs.Prelude.{◌≡◌};
ghost use Rattle.lg_snapshot.specs.declared.fault.LoadFault.TheVariants as loading;
ghost use Rattle.lg_snapshot.specs.declared.fault.SaveFault.TheVariants as saving;

use lg_base::{Failed, NoMemory};
use lg_target::AsideFault;
use std::error::Error;
use std::fmt;

/// Why a state was not saved. The named file is as it was.
#[derive(Clone, Copy, Debug, PartialEq, Eq, Hash)]
pub enum SaveFault {
    /// A call of the files failed: their count of faults rose.
    Files,
    /// Memory ran out. The files were asked nothing.
    NoMemory,
}

impl fmt::Display for SaveFault {
    fn fmt<W: fmt::Write>(&self, f: &mut fmt::Formatter<W>) -> fmt::Result {
        f.write_str(match self {
            SaveFault::Files => "the state was not saved",
            SaveFault::NoMemory => "no memory",
        })
    }
}

impl Error for SaveFault {}

impl From<NoMemory> for SaveFault {
    ghost from_gives = { λ _ fault. fault ≡ saving.NoMemory };

    fn from(_: NoMemory) -> SaveFault {
        SaveFault::NoMemory
    }
}

impl From<Failed> for SaveFault {
    ghost from_gives = { λ _ fault. fault ≡ saving.Files };

    fn from(_: Failed) -> SaveFault {
        SaveFault::Files
    }
}

impl From<AsideFault> for SaveFault {
    ghost use Rattle.lg_snapshot.specs.SaveFaults.{save_fault};

    ghost from_gives = { λ fault result. result ≡ save_fault fault };

    fn from(fault: AsideFault) -> SaveFault {
        match fault {
            AsideFault::Files => SaveFault::Files,
            AsideFault::NoMemory => SaveFault::NoMemory,
        }
    }
}

/// Why no file was read.
#[derive(Clone, Copy, Debug, PartialEq, Eq, Hash)]
pub enum LoadFault {
    /// The read failed: the files' count of faults rose.
    Files,
    /// Memory ran out.
    NoMemory,
}

impl fmt::Display for LoadFault {
    fn fmt<W: fmt::Write>(&self, f: &mut fmt::Formatter<W>) -> fmt::Result {
        f.write_str(match self {
            LoadFault::Files => "the state was not read",
            LoadFault::NoMemory => "no memory",
        })
    }
}

impl Error for LoadFault {}

impl From<NoMemory> for LoadFault {
    ghost from_gives = { λ _ fault. fault ≡ loading.NoMemory };

    fn from(_: NoMemory) -> LoadFault {
        LoadFault::NoMemory
    }
}
