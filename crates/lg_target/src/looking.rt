ghost use Rattle.std.specs.Prelude.{IsErr};
ghost use Rattle.lg_io.specs.Cause.{HasCause};
ghost use Rattle.lg_io.specs.Files.{TellsCall, exists, exists_answer};

use lg_base::{Failed, Text};
use lg_io::Files;

/// Whether there is a file at this path, by one look-up. It takes no memory.
pub fn exists<F: Files>(files: &mut F, path: &Text) -> Result<bool, Failed>
    ensures told { TellsCall (F.files files.old) (exists path.now) (exists_answer result) (F.files files.new) }
    ensures cause { HasCause (F.faults files.old) (F.faults files.new) (IsErr result) }
{
    files.exists(path)
}
