//! `add_task` on states of few tasks.
ghost use Rattle.std.specs.Prelude.{◌+◌, ◌<◌, ◌^◌, IfOk, IsTrue};
ghost use Rattle.lg_calls.specs.Methods.AddTask.{add_task_in_range};
ghost use Rattle.lg_calls.specs.Tasks.{have_distinct_ids};

use super::*;
use crate::adding::add_task;
use lg_calls::{AddTask, Reported, RetryPolicy, StepFault, WorkerRec};

// Worker `w` reports a task of family `F`, with priority 3.
pub(super) fn ask(alloc: Global, task: &str, status: Reported) -> Result<AddTask, NoMemory>
    ensures { IfOk result (λ ask. IsTrue (add_task_in_range ask)) }
{
    let worker = WorkerId::from(text(alloc, "w")?);
    let task_id = id(alloc, task)?;
    let family = Name::from(text(alloc, "F")?);
    Ok(AddTask {
        worker,
        task_id,
        status,
        runnable: true,
        deps: None,
        new_deps: Seq::new(alloc),
        expl: None,
        resources: Amounts::new(alloc),
        priority: 3,
        family,
        module: None,
        params: Seq::new(alloc),
        accepts_messages: false,
        assistant: false,
        tracking_url: None,
        batchable: None,
        batch_id: None,
        retry_policy: RetryPolicy {
            retry_count: None,
            disable_hard_timeout: None,
            disable_window: None,
        },
    })
}

// A worker that is known since 500.
fn worker(alloc: Global, word: &str, disabled: bool) -> Result<WorkerRec, NoMemory> {
    let id = WorkerId::from(text(alloc, word)?);
    Ok(WorkerRec {
        id,
        started: Moment(500),
        last_active: Moment(500),
        last_get_work: None,
        info: Seq::new(alloc),
        disabled,
    })
}

// These ids, in order.
pub(super) fn ids(alloc: Global, words: &[&str]) -> Result<Seq<TaskId>, NoMemory> {
    let mut ids = Seq::new(alloc);
    for word in words {
        ids.push(id(alloc, word)?)?;
    }
    Ok(ids)
}

// Each task with its status, family and priority, how many dependencies it has, and how many workers want it and can run it.
pub(super) fn listed(alloc: Global, state: &State) -> Result<String, NoMemory> {
    let mut listed = String::new(alloc);
    for task in state.tasks.as_slice() {
        let line = line(alloc, task)?;
        listed.push_str(line.as_str())?;
    }
    Ok(listed)
}

fn line(alloc: Global, task: &TaskRec) -> Result<String, NoMemory> {
    let id = task.id.as_str();
    let status = task.status;
    let family = task.family.as_str();
    let priority = task.priority;
    let deps = task.deps.len();
    let stakeholders = task.stakeholders.len();
    let workers = task.workers.len();
    Ok(format!(in alloc;
        "{id} {status:?} '{family}' {priority} {deps} {stakeholders} {workers}; "
    )?)
}

// What `add_task` makes of a state: its tasks, or how many there are where it is full.
fn added(alloc: Global, state: &mut State, ask: &AddTask) -> Result<String, NoMemory>
    requires retry_fits { state.old.moment.0 + state.old.settings.retry_delay < 2 ^ 64 }
    requires in_range { IsTrue (add_task_in_range ask.now) }
    requires distinct { IsTrue (have_distinct_ids state.old.tasks) }
{
    match add_task(state, alloc, ask) {
        Ok(()) => listed(alloc, state),
        Err(StepFault::Full(tasks)) => {
            let listed = listed(alloc, state)?;
            Ok(format!(in alloc; "full {tasks}: {listed}")?)
        }
        Err(StepFault::NoMemory) => Err(NoMemory),
    }
}

// A task that was done at 5,000, reported at a moment.
fn done_and_reported(alloc: Global, moment: u64, status: Reported) -> Result<String, NoMemory>
    requires { moment < 2 ^ 40 }
{
    let mut tasks = Seq::new(alloc);
    let mut done = task(alloc, "t", Status::Done)?;
    done.updated = Moment(5_000);
    tasks.push(done)?;
    let mut state = state(alloc, tasks);
    state.next = 1;
    state.moment = Moment(moment);
    added(alloc, &mut state, &ask(alloc, "t", status)?)
}

// What is done stays done for ten seconds, where it is reported PENDING.
#[test]
fn done_stays_done_for_the_cooldown(rt: HostRuntime) -> Result<(), Fail> {
    let alloc = rt.alloc();
    let shown = done_and_reported(alloc, 14_999, Reported::Pending)?;
    assert_eq!(rt; shown.as_str(), "t Done 'Copy' 0 0 0 0; ");
    let shown = done_and_reported(alloc, 15_000, Reported::Pending)?;
    assert_eq!(rt; shown.as_str(), "t Pending 'Copy' 3 0 1 1; ");
    let shown = done_and_reported(alloc, 14_999, Reported::Suspended)?;
    assert_eq!(rt; shown.as_str(), "t Pending 'Copy' 3 0 1 1; ");
    Ok(())
}

// A scheduler that keeps two tasks and has one is full where two would be made, and takes one.
fn two_at_most(alloc: Global, deps: &[&str]) -> Result<String, NoMemory> {
    let mut tasks = Seq::new(alloc);
    tasks.push(task(alloc, "a", Status::Pending)?)?;
    let mut state = state(alloc, tasks);
    state.next = 1;
    state.settings.max_tasks = 2;
    let mut ask = ask(alloc, "b", Reported::Pending)?;
    ask.deps = Some(ids(alloc, deps)?);
    added(alloc, &mut state, &ask)
}

#[test]
fn full_is_where_the_tasks_with_those_made_are_too_many(rt: HostRuntime) -> Result<(), Fail> {
    let shown = two_at_most(rt.alloc(), ["c"].as_slice())?;
    assert_eq!(rt; shown.as_str(), "full 1: a Pending 'Copy' 0 0 0 0; ");
    let shown = two_at_most(rt.alloc(), [].as_slice())?;
    assert_eq!(rt;
        shown.as_str(),
        "a Pending 'Copy' 0 0 0 0; b Pending 'F' 3 0 1 1; "
    );
    Ok(())
}

// A new task of worker `w`, which may be disabled, with three dependencies, of which one is known and one stands twice.
fn new_task(alloc: Global, disabled: bool) -> Result<String, NoMemory> {
    let mut tasks = Seq::new(alloc);
    tasks.push(task(alloc, "k", Status::Failed)?)?;
    let mut state = state(alloc, tasks);
    state.next = 1;
    state.workers.push(worker(alloc, "w", disabled)?)?;
    let mut ask = ask(alloc, "b", Reported::Pending)?;
    ask.deps = Some(ids(alloc, ["z", "k", "a", "z"].as_slice())?);
    added(alloc, &mut state, &ask)
}

// Dependencies are made in the order of their bytes, UNKNOWN and without a family, and one that is known becomes as urgent; a
// disabled worker makes no task.
#[test]
fn dependencies_are_made_in_order(rt: HostRuntime) -> Result<(), Fail> {
    let shown = new_task(rt.alloc(), false)?;
    assert_eq!(rt;
        shown.as_str(),
        "k Failed 'Copy' 3 0 1 0; b Pending 'F' 3 3 1 1; a Unknown '' 3 0 1 0; z Unknown '' 3 0 1 0; "
    );
    let shown = new_task(rt.alloc(), true)?;
    assert_eq!(rt; shown.as_str(), "k Failed 'Copy' 0 0 0 0; ");
    Ok(())
}
