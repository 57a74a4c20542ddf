ghost use Rattle.std.specs.Prelude.{◌≡◌, ◌+◌, [], Some, length};
ghost use Rattle.lg_io.specs.declared.sink.WriteStep.TheVariants.{Failed};
ghost use Rattle.lg_io.specs.Cause.{HasCause};
ghost use Rattle.lg_io.specs.MemorySink.{sink_taken, sink_faults, sink_script, wants_of, WritesByScript};
ghost use Rattle.lg_io.specs.Rest.{nothing};
ghost use Rattle.lg_io.specs.Sink.{FitsPiece, Takes, taken_of};

use super::FaultPlan;
use crate::{Sink, WriteStep};
use lg_base::Tally;
use std::alloc::Global;

/// A sink that keeps what it takes. A write for which it finds no memory fails.
#[derive(Drop)]
pub struct MemorySink<P> {
    bytes: Vec<u8>,
    /// How many bytes it takes at most in a write; it takes one where this is 0.
    pub most: usize,
    plan: P,
    wants: Tally,
}

impl<P: FaultPlan> MemorySink<P> {
    /// A sink that takes at most `most` bytes a write, but at least one.
    pub fn new(alloc: Global, most: usize, plan: P) -> MemorySink<P>
        ensures taken { sink_taken result ≡ Some [] }
        ensures faults { sink_faults P.faults result ≡ P.faults plan }
        ensures due { sink_script P.due result ≡ record { most = most; fails = P.due plan } }
        ensures script { sink_script P.script result ≡ record { most = most; fails = P.script plan } }
    {
        MemorySink {
            bytes: Vec::new(alloc),
            most,
            plan,
            wants: Tally::none(),
        }
    }

    /// The bytes that it took.
    pub fn bytes(&self) -> &[u8]
        ensures { sink_taken self.now ≡ Some result.now }
    {
        self.bytes.as_slice()
    }

    /// The bytes that it took, to keep. It takes no memory.
    pub fn into_bytes(self) -> Vec<u8>
        ensures { sink_taken self ≡ Some result.items }
    {
        self.bytes
    }

    /// How many of its writes its plan made fail; those that found no memory aren't among them.
    pub fn planned_faults(&self) -> u64
        ensures { result + wants_of self.now ≡ sink_faults P.faults self.now }
    {
        self.plan.fault_count()
    }

    /// Begins anew, as if nothing had been written.
    pub fn restart(&mut self)
        ensures taken { sink_taken self.new ≡ Some [] }
        ensures faults { sink_faults P.faults self.new ≡ 0 }
        ensures due { sink_script P.due self.new ≡ sink_script P.script self.old }
        ensures script { sink_script P.script self.new ≡ sink_script P.script self.old }
    {
        self.bytes.clear();
        self.plan.restart();
        self.wants = Tally::none();
    }
}

impl<P: FaultPlan> Sink for MemorySink<P> {
    ghost taken = { sink_taken };

    ghost faults = { sink_faults P.faults };

    ghost rest = { λ _. nothing };

    fn write(&mut self, piece: &[u8]) -> WriteStep
        ensures count { FitsPiece result (length piece.now) }
        ensures told { Takes (sink_taken self.old) (sink_taken self.new) (taken_of result piece.now) }
        ensures cause { HasCause (sink_faults P.faults self.old) (sink_faults P.faults self.new)
            (result ≡ Failed) }
        ensures follows { WritesByScript P.due self.old self.new (length piece.now) result }
        ensures script { sink_script P.script self.new ≡ sink_script P.script self.old }
    {
        if self.plan.is_due() {
            return WriteStep::Failed;
        }
        let count = self.most.max(1).min(piece.len());
        if self.bytes.extend_from_slice(&piece[..count]).is_err() {
            self.wants = self.wants.with_one_more();
            return WriteStep::Failed;
        }
        WriteStep::Took(count)
    }
}
