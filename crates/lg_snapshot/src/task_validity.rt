//! Whether a task of a state is valid.
ghost use Rattle.std.specs.Prelude.{◌≡◌, IfOk};
ghost use Rattle.std.specs.List.{list_all};
ghost use Rattle.lg_snapshot.specs.Validity as spec;

use crate::order::{are_distinct, rise};
use lg_base::{Moment, NoMemory};
use lg_calls::{Status, TaskRec};
use lg_retry::Policy;
use std::alloc::Global;

/// Whether each task passes, of a state with this moment and this number for the next task.
pub(crate) fn tasks_pass(
    alloc: Global,
    now: Moment,
    next: u64,
    tasks: &[TaskRec],
) -> Result<bool, NoMemory>
    ensures { IfOk result (λ pass. pass ≡ list_all (spec.passes_in now next) tasks.now) }
{
    for task in tasks {
        if !passes_in(alloc, now, next, task)? {
            return Ok(false);
        }
    }
    Ok(true)
}

fn passes_in(alloc: Global, now: Moment, next: u64, task: &TaskRec) -> Result<bool, NoMemory>
    ensures { IfOk result (λ passes. passes ≡ spec.passes_in now next task.now) }
{
    if task.number < next && task_passes(now, task) {
        are_distinct(alloc, task.workers.as_slice())
    } else {
        Ok(false)
    }
}

fn task_passes(now: Moment, task: &TaskRec) -> bool
    ensures { result ≡ spec.task_passes now task.now }
{
    suits(task)
        && moments_pass(now, task)
        && history_passes(now, task)
        && policy_fits(&task.policy)
        && lists_pass(task)
}

// Whether a task has what its status asks for.
fn suits(task: &TaskRec) -> bool
    ensures { result ≡ spec.suits task.now.status task.now }
{
    match task.status {
        Status::Running => runs(task) && task.disabled_at.is_none(),
        Status::BatchRunning => runs(task) && task.batch.is_some() && task.disabled_at.is_none(),
        Status::Failed => rests(task) && task.disabled_at.is_none() && task.retry.is_some(),
        Status::Disabled => rests(task),
        _ => rests(task) && task.disabled_at.is_none(),
    }
}

fn rests(task: &TaskRec) -> bool
    ensures { result ≡ spec.rests task.now }
{
    task.worker_running.is_none() && task.time_running.is_none() && task.batch.is_none()
}

fn runs(task: &TaskRec) -> bool
    ensures { result ≡ spec.runs task.now }
{
    task.worker_running.is_some() && task.time_running.is_some()
}

fn moments_pass(now: Moment, task: &TaskRec) -> bool
    ensures { result ≡ spec.moments_pass now task.now }
{
    task.added.0 <= now.0
        && task.updated.0 <= now.0
        && is_not_later(task.time_running, now)
        && is_not_later(task.disabled_at, now)
        && fits_moment(task.retry)
        && fits_moment(task.remove)
}

fn history_passes(now: Moment, task: &TaskRec) -> bool
    ensures { result ≡ spec.history_passes now task.now }
{
    failures_pass(now, task) && rise(task.failures.moments())
}

// Whether no failure is later than the moment.
fn failures_pass(now: Moment, task: &TaskRec) -> bool
    ensures { result ≡ spec.failures_pass now task.now }
{
    is_not_later(task.failures.first(), now) && are_not_later(task.failures.moments(), now)
}

fn are_not_later(moments: &[Moment], now: Moment) -> bool
    ensures { result ≡ spec.are_not_later now moments.now }
{
    moments.iter().all(|moment| moment.0 <= now.0)
}

fn policy_fits(policy: &Policy) -> bool
    ensures { result ≡ spec.policy_fits policy.now }
{
    policy.retry_count < 1 << 63
        && policy.disable_window < 1 << 63
        && policy.disable_hard_timeout < 1 << 63
}

fn lists_pass(task: &TaskRec) -> bool
    ensures { result ≡ spec.lists_pass task.now }
{
    rise(task.params.as_slice()) && rise(task.deps.as_slice()) && rise(task.stakeholders.as_slice())
}

/// Whether a moment isn't later than another, where there is one.
pub(crate) fn is_not_later(when: Option<Moment>, now: Moment) -> bool
    ensures { result ≡ spec.is_not_later when now }
{
    match when {
        None => true,
        Some(when) => when.0 <= now.0,
    }
}

fn fits_moment(when: Option<Moment>) -> bool
    ensures { result ≡ spec.fits_moment when }
{
    match when {
        None => true,
        Some(when) => when.0 < 1 << 63,
    }
}
