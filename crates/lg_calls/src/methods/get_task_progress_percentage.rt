//! `get_task_progress_percentage`.
ghost use Rattle.lg_calls.specs.Methods.GetTaskProgressPercentage.{get_task_progress_percentage};
ghost use Rattle.lg_calls.specs.Reading.{Reads};

use crate::arguments::Arguments;
use crate::refusal::PayloadFault;
use lg_base::TaskId;

/// How far a task has come.
#[derive(Debug, Drop)]
pub struct GetTaskProgressPercentage {
    /// The task.
    pub task_id: TaskId,
}

impl GetTaskProgressPercentage {
    /// Reads `task_id`, a text that has to be there.
    pub(crate) fn read(arguments: &mut Arguments) -> Result<GetTaskProgressPercentage, PayloadFault>
        ensures { Reads get_task_progress_percentage arguments.old arguments.new result }
    {
        let task_id = arguments.needed_text("task_id")?;
        Ok(GetTaskProgressPercentage {
            task_id: TaskId::from(task_id),
        })
    }
}
