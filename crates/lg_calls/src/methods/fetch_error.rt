//! `fetch_error`.
ghost use Rattle.lg_calls.specs.Methods.FetchError.{fetch_error};
ghost use Rattle.lg_calls.specs.Reading.{Reads};

use crate::arguments::Arguments;
use crate::refusal::PayloadFault;
use lg_base::TaskId;

/// Why a task failed.
#[derive(Debug, Drop)]
pub struct FetchError {
    /// The task.
    pub task_id: TaskId,
}

impl FetchError {
    /// Reads `task_id`, a text that has to be there.
    pub(crate) fn read(arguments: &mut Arguments) -> Result<FetchError, PayloadFault>
        ensures { Reads fetch_error arguments.old arguments.new result }
    {
        let task_id = arguments.needed_text("task_id")?;
        Ok(FetchError {
            task_id: TaskId::from(task_id),
        })
    }
}
