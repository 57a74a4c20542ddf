ghost use Rattle.std.specs.Prelude.{◌≡◌, IsErr};
ghost use Rattle.lg_io.specs.Cause.{HasCause};
ghost use Rattle.lg_io.specs.Sink.{WritesAll};

use crate::{Sink, WriteStep};
use lg_base::Failed;

/// Writes the whole piece, or a front of it where a write fails. It takes no memory.
pub fn write_all<S: Sink>(sink: &mut S, piece: &[u8]) -> Result<(), Failed>
    ensures told { WritesAll (S.taken sink.old) (S.taken sink.new) piece.now result }
    ensures cause { HasCause (S.faults sink.old) (S.faults sink.new) (IsErr result) }
    ensures rest { S.rest sink.new ≡ S.rest sink.old }
{
    let mut left = piece;
    while !left.is_empty() {
        match sink.write(left) {
            WriteStep::Took(count) => left = &left[count..],
            WriteStep::Failed => return Err(Failed),
        }
    }
    Ok(())
}
