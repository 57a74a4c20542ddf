//! `re_enable_task`.
ghost use Rattle.lg_calls.specs.Methods.ReEnableTask.{re_enable_task};
ghost use Rattle.lg_calls.specs.Reading.{Reads};

use crate::arguments::Arguments;
use crate::refusal::PayloadFault;
use lg_base::TaskId;

/// Enables a task that the scheduler disabled.
#[derive(Debug, Drop)]
pub struct ReEnableTask {
    /// The task.
    pub task_id: TaskId,
}

impl ReEnableTask {
    /// Reads `task_id`, a text that has to be there.
    pub(crate) fn read(arguments: &mut Arguments) -> Result<ReEnableTask, PayloadFault>
        ensures { Reads re_enable_task arguments.old arguments.new result }
    {
        let task_id = arguments.needed_text("task_id")?;
        Ok(ReEnableTask {
            task_id: TaskId::from(task_id),
        })
    }
}
