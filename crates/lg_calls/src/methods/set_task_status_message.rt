//! `set_task_status_message`.
ghost use Rattle.lg_calls.specs.Methods.SetTaskStatusMessage.{set_task_status_message};
ghost use Rattle.lg_calls.specs.Reading.{Reads};

use crate::arguments::Arguments;
use crate::refusal::PayloadFault;
use lg_base::{TaskId, Text};

/// A task says something of itself.
#[derive(Debug, Drop)]
pub struct SetTaskStatusMessage {
    /// The task.
    pub task_id: TaskId,
    /// What it says.
    pub status_message: Text,
}

impl SetTaskStatusMessage {
    /// Reads `task_id` and `status_message`, texts that have to be there.
    pub(crate) fn read(arguments: &mut Arguments) -> Result<SetTaskStatusMessage, PayloadFault>
        ensures { Reads set_task_status_message arguments.old arguments.new result }
    {
        let task_id = arguments.needed_text("task_id")?;
        let status_message = arguments.needed_text("status_message")?;
        Ok(SetTaskStatusMessage {
            task_id: TaskId::from(task_id),
            status_message,
        })
    }
}
