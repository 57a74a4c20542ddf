//! What the tasks at the front of a walk keep for themselves, though nobody was found to run them yet.
ghost use Rattle.std.specs.Prelude.{◌≡◌, ◌<◌, ◌+◌, ◌^◌, ◌++◌, ◌∷◌, [], ◌≤ℤ◌, ◌-ℤ◌, ℕ, find, pos, IfOk, OnOk};
ghost use Rattle.std.specs.Option.{option_copied};
ghost use Rattle.lg_calls.specs.Look.{CanBeLookedAt};
ghost use Rattle.lg_calls.specs.Work.Reserved.{is_active, slots_told, slots_of, has_slots, has_slot_left, with_slot_taken, takers, nothing_reserved};
ghost use Rattle.lg_work.specs.Reserving.{slot_in, slots_in, slot_taken, slots_active, AreWithin};

use crate::fits::fits_beside;
use crate::ready::is_ready;
use crate::sums::Sums;
use crate::walk::{info_of, is_trivial};
use lg_base::{Moment, NoMemory, WorkerId};
use lg_calls::{GetWork, Info, State, Status, TaskRec, WorkerRec};
use lg_views::statuses::is_status;
use std::alloc::Global;

/// How many slots of an active worker are left. The number may fall below 0.
#[derive(Clone, Copy)]
pub(crate) struct Slot<'a> {
    worker: &'a WorkerId,
    left: i64,
}

/// What is reserved: the slots that are left of each active worker, and what is kept of each resource.
#[derive(Drop)]
pub(crate) struct Reserved<'a> {
    slots: Vec<Slot<'a>>,
    pub(crate) amounts: Sums,
}

impl<'a> Reserved<'a> {
    ghost use Rattle.lg_calls.specs.Work.Reserved.{kept_for, with_running, with_waiting, can_be_kept, with_next};
    ghost use Rattle.lg_work.specs.Reserving.{reserved_in, IsWithin};

    /// What is reserved before the first task of a walk: nothing. A trivial worker's search knows of no active worker. Refused
    /// only where there is no memory.
    pub fn nothing(alloc: Global, ask: &GetWork, state: &'a State) -> Result<Reserved<'a>, NoMemory>
        requires { state.now.moment.0 < 2 ^ 62 }
        ensures { IfOk result (λ reserved. reserved_in reserved ≡ nothing_reserved ask.now state.now) }
    {
        let slots = slots_known(alloc, ask, state)?;
        let amounts = Sums::new(alloc);
        Ok(Reserved { slots, amounts })
    }

    /// Whether a task can be kept: it is ready, and fits beside what is reserved before it.
    pub fn can_keep(&self, state: &State, task: &TaskRec) -> bool
        requires { CanBeLookedAt state.now }
        ensures { result ≡ can_be_kept state.now (reserved_in self.now) task.now }
    {
        is_ready(state, task) && fits_beside(state, &self.amounts, task)
    }

    /// One task more that isn't chosen. Where there is no memory this is left anyhow.
    pub fn put_next(&mut self, ask: &GetWork, state: &State, task: &TaskRec) -> Result<(), NoMemory>
        requires looked_at { CanBeLookedAt state.now }
        requires within { IsWithin 1000000 (reserved_in self.old) }
        ensures next { OnOk result (reserved_in self.new ≡ with_next ask.now state.now (reserved_in self.old) task.now) }
        ensures within { OnOk result ((n : ℕ) → IsWithin n (reserved_in self.old) → IsWithin (n + 1) (reserved_in self.new)) }
    {
        if is_status(Status::Running, task.status) {
            self.put_running(task)
        } else if self.can_keep(state, task) {
            self.put_waiting(ask, task)
        } else {
            Ok(())
        }
    }

    // A task that runs is kept for the worker that runs it, where that is active.
    fn put_running(&mut self, task: &TaskRec) -> Result<(), NoMemory>
        requires { IsWithin 1000000 (reserved_in self.old) }
        ensures next { OnOk result (reserved_in self.new ≡ with_running task.now (reserved_in self.old)) }
        ensures within { OnOk result ((n : ℕ) → IsWithin n (reserved_in self.old) → IsWithin (n + 1) (reserved_in self.new)) }
    {
        match &task.worker_running {
            Some(worker) if has_slots(self.slots.as_slice(), worker) => self.keep(worker, task),
            _ => Ok(()),
        }
    }

    // A task that waits is kept for the first of those that can take it and have a slot left.
    fn put_waiting(&mut self, ask: &GetWork, task: &TaskRec) -> Result<(), NoMemory>
        requires { IsWithin 1000000 (reserved_in self.old) }
        ensures next { OnOk result (reserved_in self.new ≡ with_waiting ask.now task.now (reserved_in self.old)) }
        ensures within { OnOk result ((n : ℕ) → IsWithin n (reserved_in self.old) → IsWithin (n + 1) (reserved_in self.new)) }
    {
        match taker(self.slots.as_slice(), ask, task) {
            Some(worker) => self.keep(worker, task),
            None => Ok(()),
        }
    }

    // A task is kept for a worker: it takes one slot of it, and reserves the amounts of its resources.
    fn keep(&mut self, worker: &WorkerId, task: &TaskRec) -> Result<(), NoMemory>
        requires { IsWithin 1000000 (reserved_in self.old) }
        ensures next { OnOk result (reserved_in self.new ≡ kept_for worker.now task.now (reserved_in self.old)) }
        ensures within { OnOk result ((n : ℕ) → IsWithin n (reserved_in self.old) → IsWithin (n + 1) (reserved_in self.new)) }
    {
        take_slot(self.slots.as_mut_slice(), worker);
        self.amounts.add_task(task)
    }
}

// The slots of the active workers of which a worker's search knows.
fn slots_known<'a>(
    alloc: Global,
    ask: &GetWork,
    state: &'a State,
) -> Result<Vec<Slot<'a>>, NoMemory>
    requires { state.now.moment.0 < 2 ^ 62 }
    ensures { IfOk result (λ slots. slots_in slots.items ≡ (nothing_reserved ask.now state.now).slots) }
{
    if is_trivial(&ask.worker, state) {
        return Ok(Vec::new(alloc));
    }
    active_slots(
        alloc,
        state.workers.as_slice(),
        state.settings.worker_disconnect_delay,
        state.moment,
    )
}

// The slots of the workers that are active at a moment.
fn active_slots<'a>(
    alloc: Global,
    workers: &'a [WorkerRec],
    delay: u64,
    now: Moment,
) -> Result<Vec<Slot<'a>>, NoMemory>
    requires { now.0 < 2 ^ 62 }
    ensures { IfOk result (λ slots. slots_in slots.items ≡ slots_active delay now workers.now) }
{
    let mut slots = Vec::new(alloc);
    for worker in workers {
        push_active(&mut slots, worker, delay, now)?;
    }
    Ok(slots)
}

fn push_active<'a>(
    slots: &mut Vec<Slot<'a>>,
    worker: &'a WorkerRec,
    delay: u64,
    now: Moment,
) -> Result<(), NoMemory>
    requires { now.0 < 2 ^ 62 }
    ensures { OnOk result (slots_in slots.new.items ≡ slots_in slots.old.items ++ slots_active delay now (worker.now ∷ [])) }
{
    if is_active(delay, now, worker) {
        Ok(slots.push(slot_of(worker))?)
    } else {
        Ok(())
    }
}

fn slot_of(worker: &WorkerRec) -> Slot<'_>
    ensures { slot_in result ≡ (worker.now.id, slots_of worker.now) }
{
    Slot {
        worker: &worker.id,
        left: slots_of(worker),
    }
}

// Whether a worker asked for work less than the delay ago.
fn is_active(delay: u64, now: Moment, worker: &WorkerRec) -> bool
    requires { now.0 < 2 ^ 62 }
    ensures { result ≡ is_active delay now worker.now }
{
    match worker.last_get_work {
        Some(last) => now.0 < last.0.saturating_add(delay),
        None => false,
    }
}

// How many tasks a worker runs at once: what it told, from 0 to 65,535, or else 1.
fn slots_of(worker: &WorkerRec) -> i64
    ensures { result ≡ slots_of worker.now }
{
    match info_of(worker, "workers") {
        Some(info) => slots_told(info),
        None => 1,
    }
}

fn slots_told(info: &Info) -> i64
    ensures { result ≡ slots_told info.now }
{
    match info {
        Info::Number(slots) if 0 <= *slots && *slots <= 65_535 => *slots,
        _ => 1,
    }
}

// Whether a worker is active.
fn has_slots(slots: &[Slot], worker: &WorkerId) -> bool
    ensures { result ≡ has_slots (slots_in slots.now) worker.now }
{
    slots.iter().any(|slot| worker.cmp(slot.worker).is_eq())
}

// Whether a worker has a slot left.
fn has_slot_left(slots: &[Slot], worker: &WorkerId) -> bool
    ensures { result ≡ has_slot_left (slots_in slots.now) worker.now }
{
    slots
        .iter()
        .any(|slot| worker.cmp(slot.worker).is_eq() && 0 < slot.left)
}

// Takes one slot of a worker.
fn take_slot(slots: &mut [Slot], worker: &WorkerId)
    requires { AreWithin 1000000 (slots_in slots.old) }
    ensures { slots_in slots.new ≡ with_slot_taken worker.now (slots_in slots.old) }
{
    for slot in slots.iter_mut() {
        take_one(slot, worker);
    }
}

// Takes one slot where it is of the worker.
fn take_one(slot: &mut Slot, worker: &WorkerId)
    requires { (pos 0 -ℤ pos 1000000) ≤ℤ slot.old.left }
    ensures { slot_in slot.new ≡ slot_taken worker.now (slot_in slot.old) }
{
    if worker.cmp(slot.worker).is_eq() {
        slot.left -= 1;
    }
}

// The first that has a slot left among those for which a task can be kept: its workers, and behind them an assistant that asks.
fn taker<'t>(slots: &[Slot], ask: &'t GetWork, task: &'t TaskRec) -> Option<&'t WorkerId>
    ensures { option_copied result ≡ find (has_slot_left (slots_in slots.now)) (takers ask.now task.now) }
{
    match free_worker(slots, task.workers.as_slice()) {
        Some(worker) => Some(worker),
        None if ask.assistant && has_slot_left(slots, &ask.worker) => Some(&ask.worker),
        None => None,
    }
}

// The first of some workers that has a slot left.
fn free_worker<'t>(slots: &[Slot], workers: &'t [WorkerId]) -> Option<&'t WorkerId>
    ensures { option_copied result ≡ find (has_slot_left (slots_in slots.now)) workers.now }
{
    workers.iter().find(|worker| has_slot_left(slots, worker))
}
