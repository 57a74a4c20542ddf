//! `get_running_task_resources`.
ghost use Rattle.lg_calls.specs.Methods.GetRunningTaskResources.{get_running_task_resources};
ghost use Rattle.lg_calls.specs.Reading.{Reads};

use crate::arguments::Arguments;
use crate::refusal::PayloadFault;
use lg_base::TaskId;

/// What a running task takes of each resource.
#[derive(Debug, Drop)]
pub struct GetRunningTaskResources {
    /// The task.
    pub task_id: TaskId,
}

impl GetRunningTaskResources {
    /// Reads `task_id`, a text that has to be there.
    pub(crate) fn read(arguments: &mut Arguments) -> Result<GetRunningTaskResources, PayloadFault>
        ensures { Reads get_running_task_resources arguments.old arguments.new result }
    {
        let task_id = arguments.needed_text("task_id")?;
        Ok(GetRunningTaskResources {
            task_id: TaskId::from(task_id),
        })
    }
}
