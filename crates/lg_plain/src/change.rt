//! The change of status: who is meant, what is made before, and the change itself.
ghost use Rattle.std.specs.Prelude.{◌≡◌, ◌+◌, ◌<◌, ◌^◌, IsTrue, IsSome, IfOk, OnOk, OnErr};
ghost use Rattle.std.specs.Option.{option_copied};
ghost use Rattle.lg_calls.specs.Status.{is_claim, is_batch, runs_in, batch_along, along_with, set_status, enable};
ghost use Rattle.lg_calls.specs.Tasks.{find_task, change_meant};
ghost use Rattle.lg_plain.specs.Prepared.{changed_by, beginning, adds_failure, gets_failure, failures_behind, is_meant_by, IsPrepared, IsNext, Takes, adds_some, made, wants_memory, wants_memory_to_enable};

use crate::rules::{forgive, is_held, is_status, set_alone};
use lg_base::{Moment, NoMemory, Seq, TaskId, Text};
use lg_calls::{State, Status, TaskRec};
use lg_retry::Failures;
use std::alloc::Global;
use std::collections::VecDeque;
use std::mem;

/// How tasks are changed.
#[derive(Clone, Copy)]
pub(crate) struct Change {
    /// Whether they are enabled: their failures are forgotten first, and that the scheduler disabled them.
    pub forgets: bool,
    /// What they are set to.
    pub status: Status,
    pub moment: Moment,
    /// How long a failed task waits until it is tried again, in milliseconds.
    pub delay: u64,
}

/// Which tasks are changed: the one of an id, and those that run in the batch that goes along.
#[derive(Drop)]
pub(crate) struct Meant<'a> {
    pub id: &'a TaskId,
    pub along: Option<Text>,
}

/// Sets the task of an id to a status, at the moment of the state, by the six rules of the change of status; where it is a
/// claim that changes, the tasks of its batch go along. Where no task has the id nothing happens. All memory is taken
/// before the first change: a refusal leaves the state as it was, and comes only where a failure is added or a batch goes
/// along.
pub fn set(state: &mut State, alloc: Global, id: &TaskId, status: Status) -> Result<(), NoMemory>
    requires { state.old.moment.0 + state.old.settings.retry_delay < 2 ^ 64 }
    ensures ok { OnOk result (state.new ≡ set_status state.old id.now status) }
    ensures err { OnErr result (state.new ≡ state.old) }
    ensures where_wanted { OnErr result (IsTrue (wants_memory status id.now state.old.tasks)) }
{
    let along = batch_with(state.tasks.as_slice(), id, status)?;
    let change = Change {
        forgets: false,
        status,
        moment: state.moment,
        delay: state.settings.retry_delay,
    };
    make(state, alloc, &Meant { id, along }, &change)
}

/// Enables the task of an id, at the moment of the state: its failures are forgotten, and that the scheduler disabled it,
/// and it is set to FAILED. Where no task has the id nothing happens. A refusal leaves the state as it was, and comes only
/// where the task isn't disabled: enabling a disabled one takes no memory.
pub fn enable(state: &mut State, alloc: Global, id: &TaskId) -> Result<(), NoMemory>
    requires { state.old.moment.0 + state.old.settings.retry_delay < 2 ^ 64 }
    ensures ok { OnOk result (state.new ≡ enable state.old id.now) }
    ensures err { OnErr result (state.new ≡ state.old) }
    ensures where_wanted { OnErr result (IsTrue (wants_memory_to_enable id.now state.old.tasks)) }
{
    let change = Change {
        forgets: true,
        status: Status::Failed,
        moment: state.moment,
        delay: state.settings.retry_delay,
    };
    make(state, alloc, &Meant { id, along: None }, &change)
}

// Makes a change: first what it needs of memory, and then the change, without memory.
fn make(state: &mut State, alloc: Global, meant: &Meant, change: &Change) -> Result<(), NoMemory>
    requires { change.now.moment.0 + change.now.delay < 2 ^ 64 }
    ensures ok { OnOk result (state.new ≡ made change.now meant.now state.old) }
    ensures err { OnErr result (state.new ≡ state.old) }
    ensures where_wanted { OnErr result (IsTrue (adds_some change.now meant.now state.old.tasks)) }
{
    let prepared = prepare(alloc, state.tasks.as_slice(), meant, change)?;
    let mut tasks = mem::replace(&mut state.tasks, Seq::new(alloc)).into_vec();
    carry_out(tasks.as_mut_slice(), meant, change, prepared);
    state.tasks = Seq::from_vec(tasks);
    Ok(())
}

/// The task of an id, if there is one.
pub(crate) fn find_task<'a>(tasks: &'a [TaskRec], id: &TaskId) -> Option<&'a TaskRec>
    ensures { option_copied result ≡ find_task id.now tasks.now }
{
    tasks.iter().find(|task| task.has_id(id))
}

// The batch that the task of an id takes along to a status.
fn batch_with(tasks: &[TaskRec], id: &TaskId, status: Status) -> Result<Option<Text>, NoMemory>
    ensures ok { IfOk result (λ batch. batch ≡ along_with status id.now tasks.now) }
    ensures err { OnErr result (IsSome (along_with status id.now tasks.now)) }
{
    match find_task(tasks, id) {
        Some(task) => batch_of(task, status),
        None => Ok(None),
    }
}

// The batch that a task takes along to a status: that of a claim that changes.
fn batch_of(task: &TaskRec, status: Status) -> Result<Option<Text>, NoMemory>
    ensures ok { IfOk result (λ batch. batch ≡ batch_along status task.now) }
    ensures err { OnErr result (IsSome (batch_along status task.now)) }
{
    let changes = !is_status(Status::Running, status) && !is_held(status, task);
    if is_claim(task) && changes {
        Ok(task.batch.clone()?)
    } else {
        Ok(None)
    }
}

// Whether a task runs for the others of its batch.
fn is_claim(task: &TaskRec) -> bool
    ensures { result ≡ is_claim task.now }
{
    is_status(Status::Running, task.status) && task.batch.is_some()
}

/// Whether two batches are one.
pub(crate) fn is_batch(one: &Option<Text>, other: &Option<Text>) -> bool
    ensures { result ≡ is_batch one.now other.now }
{
    match (one, other) {
        (Some(one), Some(other)) => one.cmp(other).is_eq(),
        _ => false,
    }
}

impl Meant<'_> {
    // Whether a task is meant.
    fn has(&self, task: &TaskRec) -> bool
        ensures { result ≡ is_meant_by self.now task.now }
    {
        task.has_id(self.id) || self.takes_along(task)
    }

    // Whether a task runs in the batch that goes along.
    fn takes_along(&self, task: &TaskRec) -> bool
        ensures { result ≡ runs_in self.now.along task.now }
    {
        is_batch(&self.along, &task.batch) && is_status(Status::BatchRunning, task.status)
    }

    // Whether a task is meant and gets a failure, where it is set to a status.
    fn gets_failure(&self, status: Status, task: &TaskRec) -> bool
        ensures { result ≡ gets_failure status (is_meant_by self.now) task.now }
    {
        self.has(task) && adds_failure(status, task)
    }
}

// Whether a task gets a failure where it is set to a status.
fn adds_failure(status: Status, task: &TaskRec) -> bool
    ensures { result ≡ adds_failure status task.now }
{
    is_status(Status::Failed, status) && !is_status(Status::Disabled, task.status)
}

// The failures of a task with one more.
fn with_failure(alloc: Global, task: &TaskRec, change: &Change) -> Result<Failures, NoMemory>
    ensures { IfOk result (λ failures. failures.history ≡ failures_behind change.now task.now) }
{
    let mut failures = if change.forgets {
        Failures::new(alloc)
    } else {
        task.failures.clone()?
    };
    failures.reserve()?;
    failures.add(change.moment, &task.policy);
    Ok(failures)
}

// What the change needs of memory: for each task that gets a failure, its failures with that one.
fn prepare(
    alloc: Global,
    tasks: &[TaskRec],
    meant: &Meant,
    change: &Change,
) -> Result<VecDeque<Failures>, NoMemory>
    ensures ok { IfOk result (λ prepared. IsPrepared change.now meant.now tasks.now prepared.items) }
    ensures where_wanted { OnErr result (IsTrue (adds_some change.now meant.now tasks.now)) }
{
    let mut prepared = VecDeque::new(alloc);
    for task in tasks {
        if meant.gets_failure(change.status, task) {
            let failures = with_failure(alloc, task, change)?;
            prepared.push_back(failures)?;
        }
    }
    Ok(prepared)
}

// Makes the change at each task that is meant, with what was prepared.
fn carry_out(
    tasks: &mut [TaskRec],
    meant: &Meant,
    change: &Change,
    mut prepared: VecDeque<Failures>,
)
    requires retry_fits { change.now.moment.0 + change.now.delay < 2 ^ 64 }
    requires prepared { IsPrepared change.now meant.now tasks.old prepared.items }
    ensures { tasks.new ≡ change_meant (is_meant_by meant.now) (changed_by change.now) tasks.old }
{
    for task in tasks.iter_mut() {
        if meant.has(task) {
            let next = next_of(task, change.status, &mut prepared);
            change_alone(task, change, next);
        }
    }
}

// Takes out what was prepared for a task, where it gets a failure.
fn next_of(task: &TaskRec, status: Status, prepared: &mut VecDeque<Failures>) -> Option<Failures>
    ensures { Takes (adds_failure status task.now) prepared.old.items result prepared.new.items }
{
    if adds_failure(status, task) {
        prepared.pop_front()
    } else {
        None
    }
}

// Changes one task by itself.
fn change_alone(task: &mut TaskRec, change: &Change, next: Option<Failures>)
    requires retry_fits { change.now.moment.0 + change.now.delay < 2 ^ 64 }
    requires next { IsNext change.now.status change.now.moment (beginning change.now task.old) next }
    ensures { task.new ≡ changed_by change.now task.old }
{
    if change.forgets {
        forgive(task);
    }
    set_alone(task, change.delay, change.moment, change.status, next);
}
