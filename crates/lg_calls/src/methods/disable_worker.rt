//! `disable_worker`.
ghost use Rattle.lg_calls.specs.Methods.DisableWorker.{disable_worker};
ghost use Rattle.lg_calls.specs.Reading.{Reads};

use crate::arguments::Arguments;
use crate::refusal::PayloadFault;
use lg_base::WorkerId;

/// Gives a worker no more work.
#[derive(Debug, Drop)]
pub struct DisableWorker {
    /// The worker.
    pub worker: WorkerId,
}

impl DisableWorker {
    /// Reads `worker`, a text that has to be there.
    pub(crate) fn read(arguments: &mut Arguments) -> Result<DisableWorker, PayloadFault>
        ensures { Reads disable_worker arguments.old arguments.new result }
    {
        let worker = arguments.needed_text("worker")?;
        Ok(DisableWorker {
            worker: WorkerId::from(worker),
        })
    }
}
