ghost use Rattle.std.specs.Prelude.{◌≡◌, ℕ, ◌||◌, None, length, option_map, IsTrue, false};
ghost use Rattle.std.specs.Io.KnownBytes.{Consumes, IsAtEnd};
ghost use Rattle.lg_io.specs.declared.source.ReadStep.TheVariants.{End, Failed};
ghost use Rattle.lg_io.specs.Adapters.{step_of};
ghost use Rattle.lg_io.specs.Cause.{HasCause};
ghost use Rattle.lg_io.specs.Rest.{nothing};
ghost use Rattle.lg_io.specs.Source.{given, is_end, FitsBuffer};

use crate::{ReadStep, Source};
use lg_base::Tally;
use std::io::{self, ErrorKind, Read};

/// A source over a reader. A read that would block, ran out of its time or was interrupted is quiet. Behind its end it
/// leaves the reader alone.
#[derive(Drop)]
pub struct ReaderSource<R> {
    reader: R,
    is_ended: bool,
    faults: Tally,
}

impl<R: Read> ReaderSource<R> {
    /// A source over this reader, which nobody read through it.
    pub fn new(reader: R) -> ReaderSource<R>
        ensures reader { result.reader ≡ reader }
        ensures unended { result.is_ended ≡ false }
        ensures faults { result.faults.met ≡ 0 }
    {
        ReaderSource {
            reader,
            is_ended: false,
            faults: Tally::none(),
        }
    }
}

impl<R: Read> Source for ReaderSource<R> {
    ghost received = { λ _. None };

    ghost is_over = { λ s. s.is_ended };

    ghost faults = { λ s. s.faults.met };

    ghost rest = { λ _. nothing };

    fn read(&mut self, buf: &mut [u8]) -> ReadStep
        ensures count { FitsBuffer result (length buf.old) }
        ensures over { IsTrue self.old.is_ended → result ≡ End }
        ensures ends { self.new.is_ended ≡ (self.old.is_ended || is_end result) }
        ensures cause { HasCause self.old.faults.met self.new.faults.met (result ≡ Failed) }

        // The bytes that it gives are those that the reader gave, and behind the end the reader is left alone.
        ensures carried { Consumes (R.remaining self.old.reader) (R.remaining self.new.reader) (given result buf.new) }
        ensures at_end { self.old.is_ended ≡ false → result ≡ End → IsAtEnd (R.remaining self.new.reader) }
        ensures stays { IsTrue self.old.is_ended → self.new ≡ self.old }
    {
        if self.is_ended {
            return ReadStep::End;
        }
        let answer = self.reader.read(buf);
        let step = step_of(buf.len(), &answer);
        match step {
            ReadStep::End => self.is_ended = true,
            ReadStep::Failed => self.faults = self.faults.with_one_more(),
            ReadStep::Bytes(_) | ReadStep::Quiet => {}
        }
        step
    }

    ghost tells_its_end = { λ s. tt };
}

/// The answer that stands for a reader's, into a buffer of so many bytes.
fn step_of(room: usize, answer: &io::Result<usize>) -> ReadStep
    ensures { result ≡ step_of room answer.now }
{
    match answer {
        Ok(0) if room > 0 => ReadStep::End,
        Ok(count) => ReadStep::Bytes(*count),
        Err(error) => match error.kind() {
            ErrorKind::WouldBlock | ErrorKind::TimedOut | ErrorKind::Interrupted => ReadStep::Quiet,
            _ => ReadStep::Failed,
        },
    }
}
