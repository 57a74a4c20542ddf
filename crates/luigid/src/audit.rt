//! What is told of the lives: the state that each began with, its journal, and how it ended.
ghost use Rattle.std.specs.Prelude.{◌≡◌, List, [], ◌∷◌, Option, None, All, IfSome, OnOk, OnErr};
ghost use Rattle.lg_io.specs.Rest.{Rest};
ghost use Rattle.lg_io.specs.Tells.{TellsOn};
ghost use Rattle.luigid.specs.Audit.{LifeTold, HasOpenLife, EndsLife};
ghost use Rattle.lg_desk.specs.GoodEntry.{IsGoodEntry};
ghost use Rattle.lg_calls.specs.Valid.{IsValidState};

mod lines;
mod memory;

use lg_base::NoMemory;
use lg_calls::State;
use lg_desk::Journal;
pub use lines::LineAudit;
pub use memory::{AuditedLife, MemoryAudit};
use std::alloc::Global;

/// How a life ended: the first of these that applies.
#[derive(Clone, Copy, Debug, PartialEq, Eq)]
pub enum LifeEnd {
    /// The journal holds a `stop`.
    Stop,
    /// The journal has its most entries or its most bytes.
    Full,
    /// Each door answered that it is closed.
    Closed,
    /// Each door that isn't closed failed, and at least one did.
    Doors,
    /// Memory ran out outside a request.
    Memory,
}

/// Who is told of each life.
pub trait Audit {
    /// The lives in order, while it tells them.
    ghost lives: { Self → Option (List LifeTold) };

    /// What the object tells beside this trait.
    ghost rest: { Self → Rest };

    /// A life begins with this state. At an error no life began.
    fn begins(&mut self, alloc: Global, base: &State) -> Result<(), NoMemory>
        requires { IsValidState base.now }
        ensures ok { OnOk result (TellsOn (lives self.old) (lives self.new) (record { base = base.now; end = None } ∷ [])) }
        ensures err { OnErr result (lives self.new ≡ lives self.old) }
        ensures rest { rest self.new ≡ rest self.old };

    /// The life that began last ended.
    fn ends(&mut self, journal: Journal, end: LifeEnd)
        requires open { IfSome (lives self.old) HasOpenLife }
        requires good { All IsGoodEntry journal }
        ensures told { EndsLife journal end (lives self.old) (lives self.new) }
        ensures rest { rest self.new ≡ rest self.old };
}
