ghost use Rattle.std.specs.Prelude.{◌≡◌, IfOk};

use lg_base::{Name, NoMemory, Seq, WorkerId};
use std::alloc::AllocError;

/// How a worker runs tasks of a family in batches.
#[derive(Debug, Drop)]
pub struct BatcherRec {
    pub worker: WorkerId,
    pub family: Name,
    /// The parameters whose values are gathered.
    pub names: Seq<Name>,
    /// The most tasks of a batch, below 2^63; no limit where there is none.
    pub size: Option<u64>,
}

impl BatcherRec {
    /// A record equal to this one. Refused only where there is no memory.
    pub fn copy(&self) -> Result<BatcherRec, NoMemory>
        ensures { IfOk result (λ copy. copy ≡ self.now) }
    {
        Ok(self.clone()?)
    }
}

impl Clone for BatcherRec {
    ghost is_clone = { λ old new. new ≡ old };

    fn clone(&self) -> Result<BatcherRec, AllocError> {
        let worker = self.worker.clone()?;
        let family = self.family.clone()?;
        let names = self.names.clone()?;
        Ok(BatcherRec {
            worker,
            family,
            names,
            size: self.size,
        })
    }
}
