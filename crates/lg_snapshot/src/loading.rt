//! A state loaded from the file in which it was saved.
ghost use Rattle.std.specs.Prelude.{IsErrOf};
ghost use Rattle.lg_io.specs.Cause.{HasCause};
ghost use Rattle.lg_io.specs.Files.{IsTemporary};
ghost use Rattle.lg_snapshot.specs.Loading.{Loads, LoadsHeld};

use crate::decoding::decode;
use crate::fault::LoadFault;
use lg_base::Text;
use lg_calls::{Settings, State};
use lg_io::{FileRead, Files};
use lg_target::laws::aside_leaves_the_old;
use std::alloc::Global;

/// The state that is saved in the file of this path, with these settings and no moment of the last pruning; none where
/// there is no such file, or its bytes are the text of no such state. The file is read once and stays as it is. `Files`
/// exactly where the files' count of faults rose.
pub fn load<F: Files>(
    alloc: Global,
    files: &mut F,
    path: &Text,
    settings: &Settings,
) -> Result<Option<State>, LoadFault>
    ensures loads { Loads path.now settings.now (F.files files.old) (F.files files.new) result }
    ensures found { ¬ IsTemporary path.now → LoadsHeld path.now settings.now (F.files files.old) result }
    ensures cause { HasCause (F.faults files.old) (F.faults files.new) (IsErrOf result LoadFault.Files) }
{
    aside_leaves_the_old();
    match files.read(alloc, path) {
        FileRead::Found(bytes) => Ok(decode(alloc, &bytes, settings)?),
        FileRead::Absent => Ok(None),
        FileRead::Failed => Err(LoadFault::Files),
        FileRead::NoMemory => Err(LoadFault::NoMemory),
    }
}
