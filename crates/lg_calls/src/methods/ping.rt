//! `ping`.
ghost use Rattle.lg_calls.specs.Methods.Ping.{ping};
ghost use Rattle.lg_calls.specs.Reading.{Reads};

use crate::arguments::Arguments;
use crate::refusal::PayloadFault;
use lg_base::WorkerId;

/// A worker says that it is there.
#[derive(Debug, Drop)]
pub struct Ping {
    /// The worker.
    pub worker: WorkerId,
}

impl Ping {
    /// Reads `worker`, a text that has to be there.
    pub(crate) fn read(arguments: &mut Arguments) -> Result<Ping, PayloadFault>
        ensures { Reads ping arguments.old arguments.new result }
    {
        let worker = arguments.needed_text("worker")?;
        Ok(Ping {
            worker: WorkerId::from(worker),
        })
    }
}
