ghost use Rattle.std.specs.Prelude.{◌≡◌, ℕ, None, length};
ghost use Rattle.lg_io.specs.declared.sink.WriteStep.TheVariants.{Failed};
ghost use Rattle.lg_io.specs.Adapters.{Carries};
ghost use Rattle.lg_io.specs.Cause.{HasCause};
ghost use Rattle.lg_io.specs.Rest.{nothing};
ghost use Rattle.lg_io.specs.Sink.{FitsPiece};

use crate::{Sink, WriteStep};
use lg_base::Tally;
use std::io::Write;

/// A sink over a writer, which is flushed after each piece.
#[derive(Drop)]
pub struct WriterSink<W> {
    writer: W,
    faults: Tally,
}

impl<W: Write> WriterSink<W> {
    /// A sink over this writer, to which nobody wrote through it.
    pub fn new(writer: W) -> WriterSink<W>
        ensures writer { result.writer ≡ writer }
        ensures faults { result.faults.met ≡ 0 }
    {
        WriterSink {
            writer,
            faults: Tally::none(),
        }
    }
}

impl<W: Write> Sink for WriterSink<W> {
    ghost taken = { λ _. None };

    ghost faults = { λ s. s.faults.met };

    ghost rest = { λ _. nothing };

    fn write(&mut self, piece: &[u8]) -> WriteStep
        ensures count { FitsPiece result (length piece.now) }
        ensures cause { HasCause self.old.faults.met self.new.faults.met (result ≡ Failed) }
        ensures carried { Carries result (W.contents self.old.writer) (W.contents self.new.writer) piece.now }
    {
        let step = write_front(&mut self.writer, piece);
        if let WriteStep::Failed = step {
            self.faults = self.faults.with_one_more();
        }
        step
    }
}

/// Writes a front of a piece, and flushes the writer.
fn write_front<W: Write>(writer: &mut W, piece: &[u8]) -> WriteStep
    ensures count { FitsPiece result (length piece.now) }
    ensures carried { Carries result (W.contents writer.old) (W.contents writer.new) piece.now }
{
    match writer.write(piece) {
        Ok(0) if !piece.is_empty() => WriteStep::Failed,
        Ok(count) => match writer.flush() {
            Ok(()) => WriteStep::Took(count),
            Err(_) => WriteStep::Failed,
        },
        Err(_) => WriteStep::Failed,
    }
}
