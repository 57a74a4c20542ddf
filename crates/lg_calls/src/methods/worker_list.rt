//! `worker_list`.
ghost use Rattle.lg_calls.specs.Methods.WorkerList.{worker_list};
ghost use Rattle.lg_calls.specs.Reading.{Reads};

use crate::arguments::Arguments;
use crate::refusal::PayloadFault;

/// The workers.
#[derive(Debug, Drop)]
pub struct WorkerList {
    /// Whether what each of them runs is told; true where none is given.
    pub include_running: bool,
}

impl WorkerList {
    /// Reads `include_running`, a truth value.
    pub(crate) fn read(arguments: &mut Arguments) -> Result<WorkerList, PayloadFault>
        ensures { Reads worker_list arguments.old arguments.new result }
    {
        let include_running = arguments.truth("include_running")?;
        Ok(WorkerList {
            include_running: include_running.unwrap_or(true),
        })
    }
}
