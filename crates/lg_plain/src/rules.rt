//! The rules of the change of status on one task, in their order. This project's own, after Luigi's central scheduler.
ghost use Rattle.std.specs.Prelude.{◌≡◌, ◌+◌, ◌<◌, ◌^◌, IfSome};
ghost use Rattle.lg_calls.specs.declared.status.Status.TheVariants.{Failed};
ghost use Rattle.lg_calls.specs.Status.{is_status, is_held, forgiven, forgiven_by, judged_by, turned, rested, retried, set_alone};
ghost use Rattle.lg_calls.specs.Valid.{is_running};
ghost use Rattle.lg_plain.specs.Prepared.{IsNext};

use lg_base::Moment;
use lg_calls::{Status, TaskRec};
use lg_retry::Failures;

/// Whether two statuses are one.
pub(crate) fn is_status(one: Status, other: Status) -> bool
    ensures { result ≡ is_status one other }
{
    one == other
}

/// Whether a status is that of a task that runs.
pub(crate) fn is_running(status: Status) -> bool
    ensures { result ≡ is_running status }
{
    matches!(status, Status::Running | Status::BatchRunning)
}

/// Whether nothing happens: a task that runs isn't disabled, and one that the scheduler disabled stays so, but for DONE,
/// or where it is disabled again.
pub(crate) fn is_held(status: Status, task: &TaskRec) -> bool
    ensures { result ≡ is_held status task.now }
{
    match status {
        Status::Done => false,
        Status::Disabled => is_running(task.status),
        _ => task.disabled_at.is_some(),
    }
}

/// Forgets all failures, and that the scheduler disabled the task.
pub(crate) fn forgive(task: &mut TaskRec)
    ensures { task.new ≡ forgiven task.old }
{
    task.disabled_at = None;
    task.failures.forget();
}

// A disabled task that is done is forgiven.
fn forgive_done(task: &mut TaskRec, status: Status)
    ensures { task.new ≡ forgiven_by status task.old }
{
    if is_status(status, Status::Done) && is_status(Status::Disabled, task.status) {
        forgive(task);
    }
}

// The failures become these, where there are any.
fn replace_failures(task: &mut TaskRec, next: Option<Failures>)
    ensures { IfSome next (λ kept. task.new ≡ record task.old { failures = kept.history }) }
{
    if let Some(failures) = next {
        task.failures = failures;
    }
}

// A task has failed: it counts unless the task is disabled, and where that is too often, the scheduler disables it.
fn judge_failure(task: &mut TaskRec, now: Moment, next: Option<Failures>) -> Status
    requires { IsNext Failed now task.old next }
    ensures { judged_by Failed now task.old ≡ (task.new, result) }
{
    if is_status(Status::Disabled, task.status) {
        return Status::Failed;
    }
    replace_failures(task, next);
    if !task.failures.excessive(now, &task.policy) {
        return Status::Failed;
    }
    task.disabled_at = Some(now);
    Status::Disabled
}

// The status that a task gets that is set to this one. `next` is its failures with one more, where one is added.
fn judge(task: &mut TaskRec, now: Moment, status: Status, next: Option<Failures>) -> Status
    requires { IsNext status now task.old next }
    ensures { judged_by status now task.old ≡ (task.new, result) }
{
    match status {
        Status::Failed => judge_failure(task, now, next),
        Status::Disabled => {
            task.disabled_at = None;
            Status::Disabled
        }
        _ => status,
    }
}

// The status becomes this one, at a moment.
fn turn(task: &mut TaskRec, now: Moment, status: Status)
    ensures { task.new ≡ turned status now task.old }
{
    if !is_status(status, task.status) {
        task.status = status;
        task.updated = now;
    }
}

// Who doesn't run has no worker, no moment of running and no batch.
fn rest(task: &mut TaskRec)
    ensures { task.new ≡ rested task.old }
{
    if !is_running(task.status) {
        task.worker_running = None;
        task.time_running = None;
        task.batch = None;
    }
}

// A task that failed is tried again behind the delay; one that was in a batch and can't be batched is removed.
fn retry(task: &mut TaskRec, delay: u64, now: Moment, was_in_batch: bool)
    requires { now.0 + delay < 2 ^ 64 }
    ensures { task.new ≡ retried delay now was_in_batch task.old }
{
    if is_status(Status::Failed, task.status) {
        task.retry = Some(Moment(now.0 + delay));
        if was_in_batch && !task.batchable {
            task.remove = Some(now);
        }
    }
}

/// Sets one task by itself to a status. `delay` is that of a retry, in milliseconds, and `next` the task's failures with
/// one more, where one is added. It takes no memory.
pub(crate) fn set_alone(
    task: &mut TaskRec,
    delay: u64,
    now: Moment,
    status: Status,
    next: Option<Failures>,
)
    requires retry_fits { now.0 + delay < 2 ^ 64 }
    requires next { IsNext status now task.old next }
    ensures { task.new ≡ set_alone delay now status task.old }
{
    if is_held(status, task) {
        return;
    }
    let was_in_batch = task.batch.is_some();
    forgive_done(task, status);
    let status = judge(task, now, status, next);
    turn(task, now, status);
    rest(task);
    retry(task, delay, now, was_in_batch);
}
