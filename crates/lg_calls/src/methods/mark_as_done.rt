//! `mark_as_done`.
ghost use Rattle.lg_calls.specs.Methods.MarkAsDone.{mark_as_done};
ghost use Rattle.lg_calls.specs.Reading.{Reads};

use crate::arguments::Arguments;
use crate::refusal::PayloadFault;
use lg_base::TaskId;

/// Takes a task for done.
#[derive(Debug, Drop)]
pub struct MarkAsDone {
    /// The task.
    pub task_id: TaskId,
}

impl MarkAsDone {
    /// Reads `task_id`, a text that has to be there.
    pub(crate) fn read(arguments: &mut Arguments) -> Result<MarkAsDone, PayloadFault>
        ensures { Reads mark_as_done arguments.old arguments.new result }
    {
        let task_id = arguments.needed_text("task_id")?;
        Ok(MarkAsDone {
            task_id: TaskId::from(task_id),
        })
    }
}
