//! `count_pending`.
ghost use Rattle.lg_calls.specs.Methods.CountPending.{count_pending};
ghost use Rattle.lg_calls.specs.Reading.{Reads};

use crate::arguments::Arguments;
use crate::refusal::PayloadFault;
use lg_base::WorkerId;

/// What is left to do for a worker.
#[derive(Debug, Drop)]
pub struct CountPending {
    /// The worker.
    pub worker: WorkerId,
}

impl CountPending {
    /// Reads `worker`, a text that has to be there.
    pub(crate) fn read(arguments: &mut Arguments) -> Result<CountPending, PayloadFault>
        ensures { Reads count_pending arguments.old arguments.new result }
    {
        let worker = arguments.needed_text("worker")?;
        Ok(CountPending {
            worker: WorkerId::from(worker),
        })
    }
}
