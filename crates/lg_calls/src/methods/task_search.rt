//! `task_search`.
ghost use Rattle.lg_calls.specs.Methods.TaskSearch.{task_search};
ghost use Rattle.lg_calls.specs.Reading.{Reads};

use crate::arguments::Arguments;
use crate::refusal::PayloadFault;
use lg_base::Text;

/// The tasks whose id contains a text.
#[derive(Debug, Drop)]
pub struct TaskSearch {
    /// The text.
    pub task_str: Text,
}

impl TaskSearch {
    /// Reads `task_str`, a text that has to be there.
    pub(crate) fn read(arguments: &mut Arguments) -> Result<TaskSearch, PayloadFault>
        ensures { Reads task_search arguments.old arguments.new result }
    {
        let task_str = arguments.needed_text("task_str")?;
        Ok(TaskSearch { task_str })
    }
}
