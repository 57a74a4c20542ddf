//! `add_task_batcher`.
ghost use Rattle.std.specs.Prelude.{IfOk, IsTrue};
ghost use Rattle.lg_calls.specs.Methods.AddTaskBatcher.{add_task_batcher, add_task_batcher_in_range};
ghost use Rattle.lg_calls.specs.Reading.{Reads};

use crate::arguments::Arguments;
use crate::ranges::count;
use crate::refusal::PayloadFault;
use lg_base::{Name, Seq, WorkerId};

/// A worker says that it runs tasks of a family in batches.
#[derive(Debug, Drop)]
pub struct AddTaskBatcher {
    /// The worker that asks.
    pub worker: WorkerId,
    /// The family.
    pub task_family: Name,
    /// The parameters whose values are gathered.
    pub batched_args: Seq<Name>,
    /// The most tasks of a batch, 1 or more, below 2^63; no limit where there is none.
    pub max_batch_size: Option<u64>,
}

impl AddTaskBatcher {
    /// Reads `worker`, `task_family`, `batched_args` and `max_batch_size`, a whole number, 1 or more. All but the last have
    /// to be there.
    pub(crate) fn read(arguments: &mut Arguments) -> Result<AddTaskBatcher, PayloadFault>
        ensures read { Reads add_task_batcher arguments.old arguments.new result }
        ensures in_range { IfOk result (λ ask. IsTrue (add_task_batcher_in_range ask)) }
    {
        let worker = arguments.needed_text("worker")?;
        let family = arguments.needed_text("task_family")?;
        let batched_args = arguments.needed_names("batched_args")?;
        let max_batch_size = count(arguments, "max_batch_size", 1)?;
        Ok(AddTaskBatcher {
            worker: WorkerId::from(worker),
            task_family: Name::from(family),
            batched_args,
            max_batch_size,
        })
    }
}
