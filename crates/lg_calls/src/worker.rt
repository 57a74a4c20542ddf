ghost use Rattle.std.specs.Prelude.{◌≡◌, IfOk};

use crate::info::Info;
use lg_base::{Moment, Name, NoMemory, Seq, WorkerId};
use std::alloc::AllocError;

/// What the scheduler knows of a worker.
#[derive(Debug, Drop)]
pub struct WorkerRec {
    pub id: WorkerId,
    /// When it was first heard of.
    pub started: Moment,
    /// When it was last heard of.
    pub last_active: Moment,
    /// When it last asked for work.
    pub last_get_work: Option<Moment>,
    /// What it told of itself, in the order of the names' bytes, each name once.
    pub info: Seq<(Name, Info)>,
    /// Whether it gets no more work.
    pub disabled: bool,
}

impl WorkerRec {
    /// A record equal to this one. Refused only where there is no memory.
    pub fn copy(&self) -> Result<WorkerRec, NoMemory>
        ensures { IfOk result (λ copy. copy ≡ self.now) }
    {
        Ok(self.clone()?)
    }
}

impl Clone for WorkerRec {
    ghost is_clone = { λ old new. new ≡ old };

    fn clone(&self) -> Result<WorkerRec, AllocError> {
        let id = self.id.clone()?;
        let info = self.info.clone()?;
        Ok(WorkerRec {
            id,
            started: self.started,
            last_active: self.last_active,
            last_get_work: self.last_get_work,
            info,
            disabled: self.disabled,
        })
    }
}
