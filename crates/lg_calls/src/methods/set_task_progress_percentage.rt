//! `set_task_progress_percentage`.
ghost use Rattle.lg_calls.specs.Methods.SetTaskProgressPercentage.{set_task_progress_percentage};
ghost use Rattle.lg_calls.specs.Reading.{Reads};

use crate::arguments::Arguments;
use crate::refusal::PayloadFault;
use lg_base::TaskId;

/// A task tells how far it has come.
#[derive(Debug, Drop)]
pub struct SetTaskProgressPercentage {
    /// The task.
    pub task_id: TaskId,
    /// How far it has come, as it says itself: any whole number of 64 bits.
    pub progress_percentage: i64,
}

impl SetTaskProgressPercentage {
    /// Reads `task_id`, a text, and `progress_percentage`, a whole number of 64 bits. Both have to be there.
    pub(crate) fn read(arguments: &mut Arguments) -> Result<SetTaskProgressPercentage, PayloadFault>
        ensures { Reads set_task_progress_percentage arguments.old arguments.new result }
    {
        let task_id = arguments.needed_text("task_id")?;
        let progress_percentage = arguments.needed_int("progress_percentage")?;
        Ok(SetTaskProgressPercentage {
            task_id: TaskId::from(task_id),
            progress_percentage,
        })
    }
}
