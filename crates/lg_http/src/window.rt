//! The bytes in which a head is looked for.
ghost use Rattle.std.specs.Prelude.{◌≡◌, ℕ, ◌+◌, ◌-◌, ◌<◌, ◌≤◌, List, [], ◌++◌, length, take, drop, slice_range, IfOk, option_map};
ghost use Rattle.lg_io.specs.declared.source.ReadStep.TheVariants.{Failed};
ghost use Rattle.lg_io.specs.Cause.{HasCause};
ghost use Rattle.lg_io.specs.Source.{received_after};
ghost use Rattle.lg_http.specs.Heads.{max_head};
ghost use Rattle.lg_http.specs.Given.{IsGiven};

use crate::heads::MAX_HEAD;
use lg_base::NoMemory;
use lg_io::{ReadStep, Source};
use std::alloc::Global;
use std::marker::Model;

/// Room for one head. Bytes come in behind and go out in front, and each is moved once at most.
#[derive(Drop)]
pub(crate) struct Window {
    bytes: Vec<u8>,
    start: usize,
    end: usize,
}

impl Model for Window {
    ghost Value = { List ℕ };

    ghost view = { λ w. slice_range w.bytes.items w.start w.end };

    ghost invariant = { λ w. (w.start ≤ w.end) × (w.end ≤ length w.bytes.items) × (length w.bytes.items ≡ max_head) };
}

impl Window {
    pub(crate) fn make(alloc: Global) -> Result<Window, NoMemory>
        ensures { IfOk result (λ window. window ≡ []) }
    {
        Ok(Window {
            bytes: vec![in alloc; 0; MAX_HEAD]?,
            start: 0,
            end: 0,
        })
    }

    /// The bytes that it holds.
    pub(crate) fn pending(&self) -> &[u8]
        ensures same { result.now ≡ self.now }
        ensures short { length self.now ≤ max_head }
    {
        &self.bytes[self.start..self.end]
    }

    /// Reads more bytes.
    pub(crate) fn fill<R: Source>(&mut self, source: &mut R) -> ReadStep
        requires { length self.old < max_head }
        ensures short { length self.new ≤ max_head }
        ensures filled { (got : List ℕ) × IsGiven result got × (self.new ≡ self.old ++ got)
            × (R.received source.new ≡ option_map (received_after result got) (R.received source.old)) }
        ensures cause { HasCause (R.faults source.old) (R.faults source.new) (result ≡ Failed) }
        ensures rest { R.rest source.new ≡ R.rest source.old }
    {
        let (start, end) = make_room(&mut self.bytes, self.start, self.end);
        self.start = start;
        self.end = end;
        let step = read_behind(source, &mut self.bytes, self.end);
        if let ReadStep::Bytes(count) = step {
            self.end += count;
        }
        step
    }

    /// Lets so many bytes go in front.
    pub(crate) fn skip(&mut self, count: usize)
        requires { count ≤ length self.old }
        ensures { self.new ≡ drop count self.old }
    {
        self.start += count;
    }

    /// Keeps only so many bytes in front.
    pub(crate) fn keep(&mut self, count: usize)
        requires { count ≤ length self.old }
        ensures { self.new ≡ take count self.old }
    {
        self.end = self.start + count;
    }
}

/// Reads into the bytes behind the first `at`, which stay.
pub(crate) fn read_behind<R: Source>(source: &mut R, bytes: &mut [u8], at: usize) -> ReadStep
    requires { at < length bytes.old }
    ensures filled { (got : List ℕ) × IsGiven result got × (at + length got ≤ length bytes.old)
        × (take (at + length got) bytes.new ≡ take at bytes.old ++ got)
        × (R.received source.new ≡ option_map (received_after result got) (R.received source.old)) }
    ensures cause { HasCause (R.faults source.old) (R.faults source.new) (result ≡ Failed) }
    ensures rest { R.rest source.new ≡ R.rest source.old }
{
    source.read(&mut bytes[at..])
}

/// Where the bytes between two places stand, once there is room behind them: at the front, where the end was reached.
fn make_room(bytes: &mut Vec<u8>, start: usize, end: usize) -> (usize, usize)
    requires ordered { start ≤ end }
    requires in_range { end ≤ length bytes.old.items }
    requires room { end - start < length bytes.old.items }
    ensures ordered { result.0 ≤ result.1 }
    ensures room { result.1 < length bytes.new.items }
    ensures same { slice_range bytes.new.items result.0 result.1 ≡ slice_range bytes.old.items start end }
    ensures len { length bytes.new.items ≡ length bytes.old.items }
{
    if end < bytes.len() {
        return (start, end);
    }
    bytes.copy_within(start..end, 0);
    (0, end - start)
}
