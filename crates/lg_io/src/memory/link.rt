ghost use Rattle.std.specs.Prelude.{◌≡◌, Some, []};
ghost use Rattle.lg_io.specs.Source.{nothing_received};

use super::{FaultPlan, MemorySink, MemorySource};
use crate::{PairLink, Sink, Source};

/// A link in memory.
pub type MemoryLink<P> = PairLink<MemorySource<P>, MemorySink<P>>;

impl<P: FaultPlan> PairLink<MemorySource<P>, MemorySink<P>> {
    ghost use Rattle.lg_io.specs.MemoryDoor.{IsBegunAnew};

    /// Begins anew, as if nothing had been read or written.
    pub fn restart(&mut self)
        ensures received { ⟦<MemorySource<P> as Source>⟧.received self.new.source ≡ Some nothing_received }
        ensures taken { ⟦<MemorySink<P> as Sink>⟧.taken self.new.sink ≡ Some [] }
        ensures read_faults { ⟦<MemorySource<P> as Source>⟧.faults self.new.source ≡ 0 }
        ensures write_faults { ⟦<MemorySink<P> as Sink>⟧.faults self.new.sink ≡ 0 }
        ensures anew { IsBegunAnew P.due P.script self.old self.new }
    {
        self.source.restart();
        self.sink.restart();
    }
}
