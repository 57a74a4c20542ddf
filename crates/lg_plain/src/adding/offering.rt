//! How urgent a task is, how often it may fail, and who can run it.
ghost use Rattle.std.specs.Prelude.{◌≡◌, ◌*◌, ◌<◌, IsTrue, OnOk, option_map, unwrap_or};
ghost use Rattle.std.specs.List.{list_any};
ghost use Rattle.lg_calls.specs.Order.{is_same};
ghost use Rattle.lg_calls.specs.RetryEntries.{is_entry, is_policy};
ghost use Rattle.lg_calls.specs.Settings.{seconds};
ghost use Rattle.lg_calls.specs.AddTask.Offering.{offers, policy_with, as_urgent, runnable_by};

use super::reporting::status_of;
use super::touching::is_disabled;
use crate::rules::is_status;
use lg_base::{NoMemory, WorkerId};
use lg_calls::{AddTask, RetryPolicy, State, Status, TaskRec};
use lg_retry::Policy;

// One second in milliseconds.
const SECOND: u64 = 1_000;

/// The greater priority stays.
pub(crate) fn raise(task: &mut TaskRec, ask: &AddTask)
    ensures { task.new ≡ as_urgent ask.now task.old }
{
    if task.priority < ask.priority {
        task.priority = ask.priority;
    }
}

/// A policy, and over it what is said: seconds are kept in milliseconds.
pub(crate) fn policy_with(said: &RetryPolicy, policy: &Policy) -> Policy
    requires { IsTrue (is_policy said.now) }
    ensures { result ≡ policy_with said.now policy.now }
{
    Policy {
        retry_count: said.retry_count.unwrap_or(policy.retry_count),
        disable_window: time_or(said.disable_window, policy.disable_window),
        disable_hard_timeout: time_or(said.disable_hard_timeout, policy.disable_hard_timeout),
    }
}

// Seconds in milliseconds, or else this time.
fn time_or(said: Option<u64>, time: u64) -> u64
    requires { IsTrue (is_entry said) }
    ensures { result ≡ unwrap_or (option_map seconds said) time }
{
    match said {
        Some(said) => said * SECOND,
        None => time,
    }
}

/// The worker can run the task: it is put behind the task's workers where it isn't among them.
pub(crate) fn offer(task: &mut TaskRec, worker: &WorkerId) -> Result<(), NoMemory>
    ensures { OnOk result (task.new ≡ runnable_by worker.now task.old) }
{
    if !is_among(worker, task.workers.as_slice()) {
        task.workers.push(worker.clone()?)?;
    }
    task.runnable = true;
    Ok(())
}

fn is_among(worker: &WorkerId, workers: &[WorkerId]) -> bool
    ensures { result ≡ list_any (is_same worker.now) workers.now }
{
    workers.iter().any(|other| worker.cmp(other).is_eq())
}

/// Whether the worker offers to run the task: it says so, doesn't report a failure, and isn't disabled.
pub(crate) fn offers(ask: &AddTask, state: &State) -> bool
    ensures { result ≡ offers ask.now state.now }
{
    let failed = is_status(Status::Failed, status_of(ask.status));
    ask.runnable && !failed && !is_disabled(state.workers.as_slice(), &ask.worker)
}
