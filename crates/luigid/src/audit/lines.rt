ghost use Rattle.std.specs.Prelude.{◌≡◌, length, IsOk, IsErr};
ghost use Rattle.lg_io.specs.Cause.{HasCause};
ghost use Rattle.lg_io.specs.Sink.{WritesAll};
ghost use Rattle.luigid.specs.Audit.{life_line, end_of_line};
ghost use Rattle.luigid.specs.Headline.{Says};

use super::{Audit, LifeEnd};
use itoa::Buffer;
use lg_base::{Failed, NoMemory};
use lg_calls::State;
use lg_desk::Journal;
use lg_io::{Sink, write_all};
use std::alloc::Global;

/// The audit of the program: it writes a line of each life at its end, as `life 2 stop`, and tells nothing. A line that
/// can't be written is let go.
#[derive(Drop)]
pub struct LineAudit<S> {
    /// Where it writes.
    pub sink: S,
}

impl<S: Sink> LineAudit<S> {
    /// An audit that writes to this sink.
    pub fn new(sink: S) -> LineAudit<S>
        ensures { result.sink ≡ sink }
    {
        LineAudit { sink }
    }
}

impl<S: Sink> Audit for LineAudit<S> {
    ghost use Rattle.std.specs.Prelude.{None};
    ghost use Rattle.lg_io.specs.Rest.{nothing};

    ghost lives = { λ _. None };

    ghost rest = { λ _. nothing };

    /// Writes nothing, and refuses nothing.
    fn begins(&mut self, _alloc: Global, _base: &State) -> Result<(), NoMemory>
        ensures begun { IsOk result }
        ensures same { self.new ≡ self.old }
    {
        Ok(())
    }

    fn ends(&mut self, journal: Journal, end: LifeEnd)
        ensures line { Says (S.taken self.old.sink) (S.taken self.new.sink) (S.faults self.old.sink) (S.faults self.new.sink)
            (life_line (length journal) end) }
    {
        let _ = write_life(&mut self.sink, journal.len(), end);
    }
}

/// Writes the line of a life with so many calls. It takes no memory.
fn write_life<S: Sink>(sink: &mut S, calls: usize, end: LifeEnd) -> Result<(), Failed>
    ensures told { WritesAll (S.taken sink.old) (S.taken sink.new) (life_line calls end) result }
    ensures cause { HasCause (S.faults sink.old) (S.faults sink.new) (IsErr result) }
{
    let mut digits = Buffer::new();
    write_all(sink, b"life ")?;
    write_all(sink, digits.format(calls).as_bytes())?;
    write_all(sink, end_of_line(end).as_bytes())
}

/// What stands behind the number in the line of a life.
fn end_of_line(end: LifeEnd) -> &'static str
    ensures { result.now ≡ end_of_line end }
{
    match end {
        LifeEnd::Stop => " stop\n",
        LifeEnd::Full => " full\n",
        LifeEnd::Closed => " closed\n",
        LifeEnd::Doors => " doors\n",
        LifeEnd::Memory => " memory\n",
    }
}
