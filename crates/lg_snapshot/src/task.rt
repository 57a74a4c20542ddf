ghost use Rattle.std.specs.Prelude.{◌≡◌, ◌++◌, take, drop, OnOk};
ghost use Rattle.lg_snapshot.specs.Fitting.{FieldsAreHeld, TaskFits};
ghost use Rattle.lg_snapshot.specs.Records as spec;

use crate::leaves::ByName;
use crate::writing::{Output, Written};
use lg_base::NoMemory;
use lg_calls::TaskRec;

impl Written for TaskRec {
    ghost tree = { spec.tree_of_task };

    ghost fits = { TaskFits };

    fn write(&self, output: &mut Output) -> Result<(), NoMemory> {
        output.first("accepts_messages", &self.accepts_messages)?;
        write_first(self, output)?;
        write_middle(self, output)?;
        write_last(self, output)?;
        output.end()
    }
}

// The fields behind the first, up to the family.
fn write_first(task: &TaskRec, output: &mut Output) -> Result<(), NoMemory>
    ensures written { OnOk result (output.new ≡ output.old ++ spec.more_text (take 8 (drop 1 (spec.task_fields task.now)))) }
    ensures held { OnOk result (FieldsAreHeld (take 8 (drop 1 (spec.task_fields task.now)))) }
{
    output.next("added", &task.added)?;
    output.next("batch", &task.batch)?;
    output.next("batchable", &task.batchable)?;
    output.next("deps", &task.deps)?;
    output.next("disabled_at", &task.disabled_at)?;
    output.next("expl", &task.expl)?;
    output.next("failures", &task.failures)?;
    output.next("family", &task.family)
}

// The fields from the id up to the resources.
fn write_middle(task: &TaskRec, output: &mut Output) -> Result<(), NoMemory>
    ensures written { OnOk result (output.new ≡ output.old ++ spec.more_text (take 9 (drop 9 (spec.task_fields task.now)))) }
    ensures held { OnOk result (FieldsAreHeld (take 9 (drop 9 (spec.task_fields task.now)))) }
    ensures fits { OnOk result (TaskFits task.now) }
{
    output.next("id", &task.id)?;
    output.next("module", &task.module)?;
    output.next("number", &task.number)?;
    output.next("params", &ByName(task.params.as_slice()))?;
    output.next("policy", &task.policy)?;
    output.next("priority", &task.priority)?;
    output.next("progress", &task.progress)?;
    output.next("remove", &task.remove)?;
    output.next("resources", &task.resources)
}

// The fields from the retry on.
fn write_last(task: &TaskRec, output: &mut Output) -> Result<(), NoMemory>
    ensures written { OnOk result (output.new ≡ output.old ++ spec.more_text (drop 18 (spec.task_fields task.now))) }
    ensures held { OnOk result (FieldsAreHeld (drop 18 (spec.task_fields task.now))) }
{
    output.next("retry", &task.retry)?;
    output.next("runnable", &task.runnable)?;
    output.next("stakeholders", &task.stakeholders)?;
    output.next("status", &task.status)?;
    output.next("status_message", &task.status_message)?;
    output.next("time_running", &task.time_running)?;
    output.next("tracking_url", &task.tracking_url)?;
    output.next("updated", &task.updated)?;
    output.next("worker_running", &task.worker_running)?;
    output.next("workers", &task.workers)
}
