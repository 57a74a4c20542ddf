ghost use Rattle.std.specs.Prelude.{◌≡◌, ◌≤◌, ◌++◌, length, take, drop, min, max, Some, IfSome, IsTrue, IsFalse, ◌||◌, option_map, vec_len, refl};
ghost use Rattle.lg_io.specs.declared.source.ReadStep.TheVariants.{End, Failed};
ghost use Rattle.lg_io.specs.Cause.{HasCause};
ghost use Rattle.lg_io.specs.Rest.{nothing};
ghost use Rattle.lg_io.specs.Source.{nothing_received, received_after, given, is_end, FitsBuffer};

use super::FaultPlan;
use crate::{ReadStep, Source};

/// What a source in memory does at a read that doesn't fail.
#[derive(Clone, Copy, Debug, PartialEq, Eq)]
pub enum Turn {
    /// It gives at most so many bytes, but at least one.
    Piece(usize),
    /// It has no bytes now.
    Quiet,
}

/// A source that gives the bytes of its input by its turns. Behind the last turn each read gives all that fits, and
/// behind the last byte it is at its end.
#[derive(Debug, Drop)]
pub struct MemorySource<P> {
    input: Vec<u8>,
    at: usize,
    turns: Vec<Turn>,
    next: usize,
    quiets: usize,
    is_ended: bool,
    plan: P,
    ghost in_input: { at ≤ vec_len input },
    ghost in_turns: { next ≤ vec_len turns },
    ghost quiet_turns: { quiets ≤ next },
}

impl<P: FaultPlan> MemorySource<P> {
    ghost use Rattle.lg_io.specs.MemorySource.{source_received, source_over, source_faults, source_script, source_ahead};

    /// A source of this input.
    pub fn new(input: Vec<u8>, turns: Vec<Turn>, plan: P) -> MemorySource<P>
        ensures received { source_received result ≡ Some nothing_received }
        ensures ahead { source_ahead P.due result
            ≡ record { input = input.items; turns = turns.items; fails = P.due plan } }
        ensures script { source_script P.script result
            ≡ record { input = input.items; turns = turns.items; fails = P.script plan } }
        ensures faults { source_faults P.faults result ≡ P.faults plan }
    {
        MemorySource {
            input,
            at: 0,
            turns,
            next: 0,
            quiets: 0,
            is_ended: false,
            plan,
        }
    }

    /// The bytes that it gave.
    pub fn given(&self) -> &[u8]
        ensures { IfSome (source_received self.now) (λ r. r.bytes ≡ result.now) }
    {
        &self.input[..self.at]
    }

    /// Whether it answered its end.
    pub fn is_ended(&self) -> bool
        ensures { source_over self.now ≡ result }
    {
        self.is_ended
    }

    /// How often it was quiet since its last byte.
    pub fn quiets(&self) -> usize
        ensures { IfSome (source_received self.now) (λ r. r.quiets ≡ result) }
    {
        self.quiets
    }

    /// How many of its reads failed.
    pub fn fault_count(&self) -> u64
        ensures { result ≡ source_faults P.faults self.now }
    {
        self.plan.fault_count()
    }

    /// Begins anew, as if nothing had been read.
    pub fn restart(&mut self)
        ensures received { source_received self.new ≡ Some nothing_received }
        ensures ahead { source_ahead P.due self.new ≡ source_script P.script self.old }
        ensures script { source_script P.script self.new ≡ source_script P.script self.old }
        ensures faults { source_faults P.faults self.new ≡ 0 }
    {
        self.at = 0;
        self.next = 0;
        self.quiets = 0;
        self.is_ended = false;
        self.plan.restart();
    }
}

impl<P> MemorySource<P> {
    ghost use Rattle.lg_io.specs.MemorySource.{source_received, piece_answer};

    // A piece of what is left: at most so many bytes, but at least one, and no more than fit; or the end.
    fn give(&mut self, most: usize, buf: &mut [u8]) -> ReadStep
        requires { IsFalse self.old.is_ended }
        ensures answer { result ≡ piece_answer most (drop self.old.at self.old.input.items) (length buf.new) }
        ensures told { source_received self.new
            ≡ option_map (received_after result buf.new) (source_received self.old) }
        ensures bytes { drop self.old.at self.old.input.items
            ≡ given result buf.new ++ drop self.new.at self.old.input.items }
        ensures ends { self.new.is_ended ≡ is_end result }
        ensures input { self.new.input ≡ self.old.input }
        ensures turns { self.new.turns ≡ self.old.turns }
        ensures next { self.new.next ≡ self.old.next }
        ensures plan { self.new.plan ≡ self.old.plan }
    {
        let left = &self.input[self.at..];
        if left.is_empty() {
            self.is_ended = true;
            return ReadStep::End;
        }
        let count = copy_front(left, most, buf);
        self.at += count;
        self.quiets = 0;
        ReadStep::Bytes(count)
    }
}

impl<P: FaultPlan> Source for MemorySource<P> {
    ghost use Rattle.lg_io.specs.MemorySource.{source_received, source_over, source_faults, source_script, source_ahead, ReadsByScript};

    ghost received = { source_received };

    ghost is_over = { source_over };

    ghost faults = { source_faults P.faults };

    ghost rest = { λ _. nothing };

    fn read(&mut self, buf: &mut [u8]) -> ReadStep
        ensures count { FitsBuffer result (length buf.old) }
        ensures told { source_received self.new
            ≡ option_map (received_after result buf.new) (source_received self.old) }
        ensures over { IsTrue (source_over self.old) → result ≡ End }
        ensures ends { source_over self.new ≡ (source_over self.old || is_end result) }
        ensures cause { HasCause (source_faults P.faults self.old) (source_faults P.faults self.new)
            (result ≡ Failed) }
        ensures stays { IsTrue (source_over self.old) →
            source_ahead P.due self.new ≡ source_ahead P.due self.old }
        ensures follows { IsFalse (source_over self.old) →
            ReadsByScript (source_ahead P.due self.old) (source_ahead P.due self.new) buf.new result }
        ensures script { source_script P.script self.new ≡ source_script P.script self.old }
    {
        if self.is_ended {
            return ReadStep::End;
        }
        if self.plan.is_due() {
            return ReadStep::Failed;
        }
        if self.next == self.turns.len() {
            return self.give(buf.len(), buf);
        }
        let turn = self.turns[self.next];
        self.next += 1;
        match turn {
            Turn::Piece(most) => self.give(most, buf),
            Turn::Quiet => {
                self.quiets += 1;
                ReadStep::Quiet
            }
        }
    }

    ghost tells_its_end = { λ s. refl };
}

/// Copies a front of `from` to the front of `buf`: at most `most` bytes, but one where `most` is 0.
fn copy_front(from: &[u8], most: usize, buf: &mut [u8]) -> usize
    ensures count { result ≡ min (max most 1) (min (length from.now) (length buf.old)) }
    ensures copied { take result buf.new ≡ take result from.now }
{
    let count = most.max(1).min(from.len().min(buf.len()));
    buf[..count].copy_from_slice(&from[..count]);
    count
}
