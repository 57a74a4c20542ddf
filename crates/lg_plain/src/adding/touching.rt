//! A worker is heard of.
ghost use Rattle.std.specs.Prelude.{◌≡◌, IfOk, OnErr, OnOk};
ghost use Rattle.std.specs.Option.{option_copied};
ghost use Rattle.lg_calls.specs.Workers.{find_worker, heard_worker, is_disabled, known_or_new, new_worker, put_worker, touched};

use super::places::put;
use lg_base::{Moment, NoMemory, Seq, WorkerId};
use lg_calls::{State, WorkerRec};
use std::alloc::Global;
use std::mem;

/// The worker of an id is heard of at the moment of the state; one that isn't known is made, at its place in the order. Where
/// there is no memory nothing changes.
pub(crate) fn touch(state: &mut State, alloc: Global, id: &WorkerId) -> Result<(), NoMemory>
    ensures touched { OnOk result (state.new ≡ touched id.now state.old) }
    ensures err { OnErr result (state.new ≡ state.old) }
{
    let heard = heard_worker(alloc, state.workers.as_slice(), id, state.moment)?;
    put_worker(state, alloc, heard)
}

/// Puts a worker at its place in the order, where it replaces the one of its id. Where there is no memory nothing changes.
pub(crate) fn put_worker(
    state: &mut State,
    alloc: Global,
    worker: WorkerRec,
) -> Result<(), NoMemory>
    ensures put { OnOk result (state.new ≡ put_worker worker state.old) }
    ensures err { OnErr result (state.new ≡ state.old) }
{
    let mut workers = mem::replace(&mut state.workers, Seq::new(alloc)).into_vec();
    let outcome = put(&mut workers, worker);
    state.workers = Seq::from_vec(workers);
    outcome
}

/// Whether the worker of an id gets no more work.
pub(crate) fn is_disabled(workers: &[WorkerRec], id: &WorkerId) -> bool
    ensures { result ≡ is_disabled id.now workers.now }
{
    match find_worker(workers, id) {
        Some(worker) => worker.disabled,
        None => false,
    }
}

// The worker of an id, if it is known.
fn find_worker<'a>(workers: &'a [WorkerRec], id: &WorkerId) -> Option<&'a WorkerRec>
    ensures { option_copied result ≡ find_worker id.now workers.now }
{
    workers.iter().find(|worker| id.cmp(&worker.id).is_eq())
}

/// The worker of an id as it is heard of at a moment.
pub(crate) fn heard_worker(
    alloc: Global,
    workers: &[WorkerRec],
    id: &WorkerId,
    now: Moment,
) -> Result<WorkerRec, NoMemory>
    ensures { IfOk result (λ worker. worker ≡ heard_worker id.now now workers.now) }
{
    let mut worker = known_or_new(alloc, workers, id, now)?;
    worker.last_active = now;
    Ok(worker)
}

/// The worker of an id as it is known, or a new one.
pub(crate) fn known_or_new(
    alloc: Global,
    workers: &[WorkerRec],
    id: &WorkerId,
    now: Moment,
) -> Result<WorkerRec, NoMemory>
    ensures { IfOk result (λ worker. worker ≡ known_or_new id.now now workers.now) }
{
    match find_worker(workers, id) {
        Some(worker) => worker.copy(),
        None => new_worker(alloc, id, now),
    }
}

// A worker of which nothing was heard before.
fn new_worker(alloc: Global, id: &WorkerId, now: Moment) -> Result<WorkerRec, NoMemory>
    ensures { IfOk result (λ worker. worker ≡ new_worker id.now now) }
{
    Ok(WorkerRec {
        id: id.clone()?,
        started: now,
        last_active: now,
        last_get_work: None,
        info: Seq::new(alloc),
        disabled: false,
    })
}
