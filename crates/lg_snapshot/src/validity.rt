//! Whether a state is valid.
ghost use Rattle.std.specs.Prelude.{◌≡◌, IfOk};
ghost use Rattle.std.specs.List.{list_all};
ghost use Rattle.lg_snapshot.specs.Validity as spec;

use crate::order::{are_distinct, rise};
use crate::task_validity::{is_not_later, tasks_pass};
use lg_base::{Moment, NoMemory};
use lg_calls::{BatcherRec, Settings, State, WorkerRec};
use std::alloc::Global;

/// The longest time of a setting, in milliseconds, and the greatest count.
const MAX_TIME: u64 = 1_000_000_000_000_000;

const MAX_COUNT: u64 = 1_000_000_000_000;

/// Whether a state is valid.
pub(crate) fn is_valid(alloc: Global, state: &State) -> Result<bool, NoMemory>
    ensures { IfOk result (λ passes. passes ≡ spec.passes state.now) }
{
    if !outside_passes(state) {
        return Ok(false);
    }
    if !are_distinct(alloc, state.tasks.as_slice())? {
        return Ok(false);
    }
    tasks_pass(alloc, state.moment, state.next, state.tasks.as_slice())
}

fn outside_passes(state: &State) -> bool
    ensures { result ≡ spec.outside_passes state.now }
{
    numbers_pass(state) && orders_pass(state) && records_pass(state)
}

fn numbers_pass(state: &State) -> bool
    ensures { result ≡ spec.numbers_pass state.now }
{
    state.moment.0 < 1 << 62
        && is_not_later(state.pruned, state.moment)
        && state.next <= 1 << 62
        && state.tasks.len() <= 1_000_000
}

fn orders_pass(state: &State) -> bool
    ensures { result ≡ spec.orders_pass state.now }
{
    rise(state.tasks.as_slice())
        && rise(state.workers.as_slice())
        && rise(state.batchers.as_slice())
}

fn records_pass(state: &State) -> bool
    ensures { result ≡ spec.records_pass state.now }
{
    times_pass(&state.settings)
        && counts_pass(&state.settings)
        && workers_pass(state.moment, state.workers.as_slice())
        && batchers_pass(state.batchers.as_slice())
}

fn times_pass(settings: &Settings) -> bool
    ensures { result ≡ spec.times_pass settings.now }
{
    settings.retry_delay <= MAX_TIME
        && settings.remove_delay <= MAX_TIME
        && settings.worker_disconnect_delay <= MAX_TIME
        && settings.disable_window <= MAX_TIME
        && settings.disable_hard_timeout <= MAX_TIME
        && settings.disable_persist <= MAX_TIME
        && settings.stable_done_cooldown <= MAX_TIME
}

fn counts_pass(settings: &Settings) -> bool
    ensures { result ≡ spec.counts_pass settings.now }
{
    settings.retry_count <= MAX_COUNT
        && settings.max_shown_tasks <= MAX_COUNT
        && settings.max_graph_nodes <= MAX_COUNT
        && 1 <= settings.max_tasks
        && settings.max_tasks <= 1_000_000
}

fn workers_pass(now: Moment, workers: &[WorkerRec]) -> bool
    ensures { result ≡ list_all (spec.worker_passes now) workers.now }
{
    workers.iter().all(|worker| worker_passes(now, worker))
}

fn worker_passes(now: Moment, worker: &WorkerRec) -> bool
    ensures { result ≡ spec.worker_passes now worker.now }
{
    worker.started.0 <= now.0
        && worker.last_active.0 <= now.0
        && is_not_later(worker.last_get_work, now)
        && rise(worker.info.as_slice())
}

fn batchers_pass(batchers: &[BatcherRec]) -> bool
    ensures { result ≡ list_all spec.batcher_passes batchers.now }
{
    batchers.iter().all(|batcher| batcher_passes(batcher))
}

fn batcher_passes(batcher: &BatcherRec) -> bool
    ensures { result ≡ spec.batcher_passes batcher.now }
{
    match batcher.size {
        None => true,
        Some(most) => most < 1 << 63,
    }
}
