//! The status that `add_task` reports, and what a task needs.
ghost use Rattle.std.specs.Prelude.{◌≡◌, [], IfOk, OnOk, find};
ghost use Rattle.std.specs.Option.{option_copied, option_map_or};
ghost use Rattle.lg_calls.specs.Status.{runs_in};
ghost use Rattle.lg_calls.specs.AddTask.Reporting.{became_running, run_begun, counts, is_nonempty, is_of_run, replaces_resources, resources_behind, resources_given, runs_for, status_of, with_deps, with_ids};

use super::places::put;
use crate::change::is_batch;
use crate::rules::{is_running, is_status};
use lg_base::{Amounts, Moment, NoMemory, Seq, TaskId, Text, WorkerId};
use lg_calls::{AddTask, Reported, Status, TaskRec};
use std::alloc::Global;

/// The status that a report is of: a task that is suspended is pending.
pub(crate) fn status_of(report: Reported) -> Status
    ensures { result ≡ status_of report }
{
    match report {
        Reported::Pending | Reported::Suspended => Status::Pending,
        Reported::Running => Status::Running,
        Reported::Done => Status::Done,
        Reported::Failed => Status::Failed,
        Reported::Disabled => Status::Disabled,
        Reported::Unknown => Status::Unknown,
    }
}

/// Whether the status counts: the task doesn't run, its own worker reports of the run, or dependencies came up.
pub(crate) fn counts(ask: &AddTask, task: &TaskRec) -> bool
    ensures { result ≡ counts ask.now task.now }
{
    let of_run = is_of_run(ask.status) && runs_for(&ask.worker, task);
    !is_running(task.status) || of_run || has_some(&ask.new_deps)
}

// What a worker may report of a task that it runs.
fn is_of_run(report: Reported) -> bool
    ensures { result ≡ is_of_run report }
{
    matches!(
        report,
        Reported::Running | Reported::Done | Reported::Failed
    )
}

// Whether this worker runs the task.
fn runs_for(worker: &WorkerId, task: &TaskRec) -> bool
    ensures { result ≡ runs_for worker.now task.now }
{
    match &task.worker_running {
        Some(running) => worker.cmp(running).is_eq(),
        None => false,
    }
}

// Whether there are any.
fn has_some(ids: &Seq<TaskId>) -> bool
    ensures { result ≡ is_nonempty ids.now }
{
    !ids.is_empty()
}

/// A task that is RUNNING is run by the worker of the call, from now on, in the batch that is given.
pub(crate) fn begin(task: &mut TaskRec, ask: &AddTask, now: Moment) -> Result<(), NoMemory>
    ensures { OnOk result (task.new ≡ run_begun ask.now now task.old) }
{
    if is_status(Status::Running, task.status) {
        let worker = ask.worker.clone()?;
        task.batch = ask.batch_id.clone()?;
        task.worker_running = Some(worker);
        task.time_running = Some(now);
    }
    Ok(())
}

/// The dependencies that are given replace the task's, and those that came up are added.
pub(crate) fn depend(task: &mut TaskRec, alloc: Global, ask: &AddTask) -> Result<(), NoMemory>
    ensures { OnOk result (task.new ≡ with_deps ask.now task.old) }
{
    let mut deps = deps_given(alloc, ask, task)?;
    put_all(&mut deps, ask.new_deps.as_slice())?;
    task.deps = Seq::from_vec(deps);
    Ok(())
}

// Those that are given, or else the task's own.
fn deps_given(alloc: Global, ask: &AddTask, task: &TaskRec) -> Result<Vec<TaskId>, NoMemory>
    ensures { IfOk result (λ deps. deps.items ≡ option_map_or (with_ids []) ask.now.deps task.now.deps) }
{
    match &ask.deps {
        Some(given) => {
            let mut deps = Vec::new(alloc);
            put_all(&mut deps, given.as_slice())?;
            Ok(deps)
        }
        None => Ok(task.deps.clone()?.into_vec()),
    }
}

// Ids more, each at its place in the order of their bytes, each once.
fn put_all(known: &mut Vec<TaskId>, more: &[TaskId]) -> Result<(), NoMemory>
    ensures { OnOk result (known.new.items ≡ with_ids known.old.items more.now) }
{
    for id in more {
        put(known, id.clone()?)?;
    }
    Ok(())
}

// Whether a task became RUNNING that wasn't before.
fn became_running(before: Status, after: Status) -> bool
    ensures { result ≡ became_running before after }
{
    is_status(Status::Running, after) && !is_status(Status::Running, before)
}

// Whether the resources are replaced: the task doesn't run, or became RUNNING just now.
fn replaces_resources(before: Status, task: &TaskRec) -> bool
    ensures { result ≡ replaces_resources before task.now }
{
    !is_running(task.status) || became_running(before, task.status)
}

/// The resources that a task has behind the step.
pub(crate) fn resources_behind(
    ask: &AddTask,
    before: Status,
    task: &TaskRec,
    tasks: &[TaskRec],
) -> Result<Amounts, NoMemory>
    ensures { IfOk result (λ resources. resources ≡ resources_behind ask.now before task.now tasks.now) }
{
    if replaces_resources(before, task) {
        resources_given(ask, before, task, tasks)
    } else {
        Ok(task.resources.clone()?)
    }
}

// Those that are given, or for a claim that became RUNNING just now those of the first task of its batch.
fn resources_given(
    ask: &AddTask,
    before: Status,
    task: &TaskRec,
    tasks: &[TaskRec],
) -> Result<Amounts, NoMemory>
    ensures { IfOk result (λ resources. resources ≡ resources_given ask.now before task.now tasks.now) }
{
    if became_running(before, task.status) {
        resources_of(first_in(&task.batch, tasks), ask)
    } else {
        Ok(ask.resources.clone()?)
    }
}

// The resources of a task, or else those that are given.
fn resources_of(first: Option<&TaskRec>, ask: &AddTask) -> Result<Amounts, NoMemory>
    ensures { IfOk result (λ resources. resources ≡ option_map_or (λ first. first.resources) (option_copied first.entry) ask.now.resources) }
{
    match first {
        Some(first) => Ok(first.resources.clone()?),
        None => Ok(ask.resources.clone()?),
    }
}

// The first task that runs in a batch.
fn first_in<'a>(batch: &Option<Text>, tasks: &'a [TaskRec]) -> Option<&'a TaskRec>
    ensures { option_copied result ≡ find (runs_in batch.now) tasks.now }
{
    tasks.iter().find(|task| is_batch(batch, &task.batch)
        && is_status(Status::BatchRunning, task.status))
}
