//! `forgive_failures`.
ghost use Rattle.lg_calls.specs.Methods.ForgiveFailures.{forgive_failures};
ghost use Rattle.lg_calls.specs.Reading.{Reads};

use crate::arguments::Arguments;
use crate::refusal::PayloadFault;
use lg_base::TaskId;

/// Lets a failed task run again at once.
#[derive(Debug, Drop)]
pub struct ForgiveFailures {
    /// The task.
    pub task_id: TaskId,
}

impl ForgiveFailures {
    /// Reads `task_id`, a text that has to be there.
    pub(crate) fn read(arguments: &mut Arguments) -> Result<ForgiveFailures, PayloadFault>
        ensures { Reads forgive_failures arguments.old arguments.new result }
    {
        let task_id = arguments.needed_text("task_id")?;
        Ok(ForgiveFailures {
            task_id: TaskId::from(task_id),
        })
    }
}
