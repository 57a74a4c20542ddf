//! `get_task_status_message`.
ghost use Rattle.lg_calls.specs.Methods.GetTaskStatusMessage.{get_task_status_message};
ghost use Rattle.lg_calls.specs.Reading.{Reads};

use crate::arguments::Arguments;
use crate::refusal::PayloadFault;
use lg_base::TaskId;

/// What a task says of itself.
#[derive(Debug, Drop)]
pub struct GetTaskStatusMessage {
    /// The task.
    pub task_id: TaskId,
}

impl GetTaskStatusMessage {
    /// Reads `task_id`, a text that has to be there.
    pub(crate) fn read(arguments: &mut Arguments) -> Result<GetTaskStatusMessage, PayloadFault>
        ensures { Reads get_task_status_message arguments.old arguments.new result }
    {
        let task_id = arguments.needed_text("task_id")?;
        Ok(GetTaskStatusMessage {
            task_id: TaskId::from(task_id),
        })
    }
}
