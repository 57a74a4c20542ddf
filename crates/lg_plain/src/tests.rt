//! The rules of the change of status on tasks, each in a table, and what a caller sees of them.
ghost use Rattle.std.specs.Prelude.{◌≡◌, IfOk, IsTrue};
ghost use Rattle.lg_calls.specs.declared.status.Status.TheVariants.{Disabled};
ghost use Rattle.lg_calls.specs.Tasks.{have_distinct_ids};
ghost use Rattle.lg_calls.specs.Valid.{IsValidTask};

use crate::adding::making::is_known;
use crate::change::{enable, set};
use lg_base::{Amounts, Moment, Name, NoMemory, Seq, TaskId, Text, WorkerId};
use lg_calls::{Settings, State, Status, TaskRec};
use lg_retry::{Failures, Policy};
use std::alloc::Global;
use std::test::Fail;

mod adding;
mod batches;
mod claims;
mod enabling;
mod plain;
mod reporting;
mod rising;
mod rules;
mod steps;
mod windows;
mod work;

// Two failures within the hour are too many.
const TWICE_AN_HOUR: Policy = Policy {
    retry_count: 2,
    disable_window: 3_600_000,
    disable_hard_timeout: 999_999_999_000,
};

fn text(alloc: Global, word: &str) -> Result<Text, NoMemory> {
    Ok(Text::copied(alloc, word)?)
}

pub(crate) fn id(alloc: Global, word: &str) -> Result<TaskId, NoMemory> {
    let word = text(alloc, word)?;
    Ok(TaskId::from(word))
}

// A task of this id and status that was made and last changed at 500 and never failed.
pub(crate) fn task(alloc: Global, word: &str, status: Status) -> Result<TaskRec, NoMemory>
    ensures number { IfOk result (λ task. task.number ≡ 0) }
    ensures valid { status ≡ Disabled → IfOk result (IsValidTask (record { 0 = 1000 })) }
{
    let id = id(alloc, word)?;
    let family = text(alloc, "Copy")?;
    Ok(TaskRec {
        id,
        number: 0,
        family: Name::from(family),
        module: None,
        params: Seq::new(alloc),
        status,
        deps: Seq::new(alloc),
        workers: Seq::new(alloc),
        stakeholders: Seq::new(alloc),
        priority: 0,
        resources: Amounts::new(alloc),
        added: Moment(500),
        updated: Moment(500),
        runnable: true,
        batchable: false,
        accepts_messages: false,
        worker_running: None,
        time_running: None,
        batch: None,
        failures: Failures::new(alloc),
        policy: TWICE_AN_HOUR,
        retry: None,
        disabled_at: None,
        remove: None,
        expl: None,
        tracking_url: None,
        status_message: None,
        progress: None,
    })
}

// A task that worker `w` runs since 700, in this batch where it isn't empty.
fn running(alloc: Global, word: &str, status: Status, batch: &str) -> Result<TaskRec, NoMemory> {
    let mut task = task(alloc, word, status)?;
    let worker = text(alloc, "w")?;
    task.worker_running = Some(WorkerId::from(worker));
    task.time_running = Some(Moment(700));
    if !batch.is_empty() {
        task.batch = Some(text(alloc, batch)?);
    }
    Ok(task)
}

// One failure more, at a moment.
fn fail_at(task: &mut TaskRec, moment: u64) -> Result<(), NoMemory> {
    task.failures.reserve()?;
    task.failures.add(Moment(moment), &TWICE_AN_HOUR);
    Ok(())
}

// Puts a task behind the others, if its id is a new one.
#[tactic(auto, using(crate::proofs::DistinctLemmas::distinct_new))]
pub(crate) fn put(tasks: &mut Vec<TaskRec>, task: TaskRec) -> Result<(), NoMemory>
    requires { IsTrue (have_distinct_ids tasks.old.items) }
    ensures { IsTrue (have_distinct_ids tasks.new.items) }
{
    if is_known(tasks.as_slice(), &task.id) {
        return Ok(());
    }
    Ok(tasks.push(task)?)
}

// A state of these tasks at 1,000, with the default settings.
fn state(alloc: Global, tasks: Seq<TaskRec>) -> State
    ensures tasks { result.tasks ≡ tasks }
    ensures moment { result.moment.0 ≡ 1000 }
    ensures delay { result.settings.retry_delay ≡ 900000 }
{
    let mut state = State::empty(alloc, Settings::new());
    state.tasks = tasks;
    state.moment = Moment(1_000);
    state
}

fn number(moment: Option<Moment>) -> Option<u64> {
    moment.map(|moment| moment.0)
}

// Where a task stands: its status and since when, how it runs, its failures, and the moments of retry, disabling and removal.
fn shown(alloc: Global, task: &TaskRec) -> Result<String, NoMemory> {
    let status = task.status;
    let updated = task.updated.0;
    let runs = task.worker_running.is_some();
    let since = number(task.time_running);
    let in_batch = task.batch.is_some();
    let first = number(task.failures.first());
    let failures = task.failures.moments().len();
    let retry = number(task.retry);
    let disabled = number(task.disabled_at);
    let remove = number(task.remove);
    let run = format!(in alloc; "{status:?} {updated}, {runs} {since:?} {in_batch}")?;
    let moments = format!(in alloc; "{first:?} {failures}, {retry:?} {disabled:?} {remove:?}")?;
    Ok(format!(in alloc; "{run}, {moments}")?)
}
