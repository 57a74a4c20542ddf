//! `get_work`.
ghost use Rattle.lg_calls.specs.Methods.GetWork.{get_work};
ghost use Rattle.lg_calls.specs.Reading.{Reads};

use crate::arguments::Arguments;
use crate::refusal::PayloadFault;
use lg_base::{Seq, TaskId, Text, WorkerId};

/// A worker asks for a task to run.
#[derive(Debug, Drop)]
pub struct GetWork {
    /// The worker that asks.
    pub worker: WorkerId,
    /// Whether it helps others, and takes any runnable task; false where none is given.
    pub assistant: bool,
    /// The tasks that it knows that it runs, in the order in which they were sent.
    pub current_tasks: Option<Seq<TaskId>>,
}

impl GetWork {
    /// Reads `worker`, `assistant` and `current_tasks`.
    pub(crate) fn read(arguments: &mut Arguments) -> Result<GetWork, PayloadFault>
        ensures { Reads get_work arguments.old arguments.new result }
    {
        let worker = arguments.needed_text("worker")?;
        let assistant = arguments.truth("assistant")?;
        let current_tasks = arguments.ids("current_tasks")?;
        Ok(GetWork {
            worker: WorkerId::from(worker),
            assistant: assistant.unwrap_or(false),
            current_tasks,
        })
    }
}
