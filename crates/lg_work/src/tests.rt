//! Which task stands first, which one waits, which one is given again, and where a search goes.
ghost use Rattle.std.specs.Prelude.{◌≡◌, ◌≢◌, [], ◌∷◌, IfOk, IsTrue, is_some};
ghost use Rattle.lg_calls.specs.Order.{are_sorted, are_distinct};
ghost use Rattle.lg_calls.specs.declared.status.Status.TheVariants.{Failed, BatchRunning};
ghost use Rattle.lg_calls.specs.Valid.{IsValidTask, IsValidState, NotLater, is_running};

use crate::given_again;
use crate::rank::rank;
use crate::ready::is_ready;
use crate::walk::walk;
use lg_base::{Amounts, Moment, Name, NoMemory, Seq, TaskId, Text, WorkerId};
use lg_calls::{GetWork, Settings, State, Status, TaskRec};
use lg_retry::{Failures, Policy};
use std::alloc::Global;
use std::cmp::Ordering;
use std::test::Fail;

fn text(alloc: Global, word: &str) -> Result<Text, NoMemory> {
    Ok(Text::copied(alloc, word)?)
}

fn id(alloc: Global, word: &str) -> Result<TaskId, NoMemory> {
    Ok(TaskId::from(text(alloc, word)?))
}

fn worker(alloc: Global, word: &str) -> Result<WorkerId, NoMemory> {
    Ok(WorkerId::from(text(alloc, word)?))
}

// The list of this item alone.
fn only<T: Drop>(alloc: Global, item: T) -> Result<Seq<T>, NoMemory>
    ensures { IfOk result (λ list. list ≡ item ∷ []) }
{
    let mut list = Seq::new(alloc);
    list.push(item)?;
    Ok(list)
}

// Which tasks a task waits for, and which workers can run it.
#[derive(Drop)]
struct Needs {
    deps: Seq<TaskId>,
    workers: Seq<WorkerId>,
    ghost deps_rise: { IsTrue (are_sorted deps) },
    ghost workers_differ: { IsTrue (are_distinct workers) },
}

fn nothing(alloc: Global) -> Needs {
    Needs {
        deps: Seq::new(alloc),
        workers: Seq::new(alloc),
    }
}

// A task of this id and status that was added at 5. The worker runs it since 6, if there is one.
fn task(
    alloc: Global,
    word: &str,
    needs: Needs,
    status: Status,
    runner: Option<WorkerId>,
) -> Result<TaskRec, NoMemory>
    requires runs { is_some runner ≡ is_running status }
    requires has_not_failed { status ≢ Failed }
    requires is_alone { status ≢ BatchRunning }
    ensures number { IfOk result (λ task. task.number ≡ 0) }
    ensures valid { IfOk result (IsValidTask (record { 0 = 6 })) }
{
    let id = id(alloc, word)?;
    let family = text(alloc, "Copy")?;
    let Needs { deps, workers } = needs;
    let since = since(&runner);
    Ok(TaskRec {
        id,
        number: 0,
        family: Name::from(family),
        module: None,
        params: Seq::new(alloc),
        status,
        deps,
        workers,
        stakeholders: Seq::new(alloc),
        priority: 0,
        resources: Amounts::new(alloc),
        added: Moment(5),
        updated: Moment(6),
        runnable: true,
        batchable: false,
        accepts_messages: false,
        worker_running: runner,
        time_running: since,
        batch: None,
        failures: Failures::new(alloc),
        policy: Policy::default(),
        retry: None,
        disabled_at: None,
        remove: None,
        expl: None,
        tracking_url: None,
        status_message: None,
        progress: None,
    })
}

// Since when a task runs, if there is a worker that runs it.
fn since(runner: &Option<WorkerId>) -> Option<Moment>
    ensures runs { is_some result ≡ is_some runner.now }
    ensures at_six { NotLater result (record { 0 = 6 }) }
{
    match runner {
        None => None,
        Some(_) => Some(Moment(6)),
    }
}

// A state of this task alone.
fn state_of(alloc: Global, task: TaskRec) -> Result<State, NoMemory>
    requires valid { IsValidTask (record { 0 = 6 }) task }
    requires number { task.number ≡ 0 }
    ensures { IfOk result IsValidState }
{
    let mut tasks = Seq::new(alloc);
    tasks.push(task)?;
    let mut state = State::empty(alloc, Settings::new());
    state.tasks = tasks;
    state.moment = Moment(6);
    state.next = 1;
    Ok(state)
}

// A task of this priority, added at this moment, with this number.
fn ranked(alloc: Global, place: (i64, u64, u64)) -> Result<TaskRec, NoMemory> {
    let mut task = task(alloc, "a", nothing(alloc), Status::Pending, None)?;
    task.priority = place.0;
    task.added = Moment(place.1);
    task.number = place.2;
    Ok(task)
}

fn order(
    alloc: Global,
    one: (i64, u64, u64),
    other: (i64, u64, u64),
) -> Result<Ordering, NoMemory> {
    let one = ranked(alloc, one)?;
    let other = ranked(alloc, other)?;
    Ok(rank(&one, &other))
}

#[test]
fn tasks_stand_by_priority_moment_and_number(rt: HostRuntime) -> Result<(), Fail> {
    let rows = [
        ((1, 9, 9), (0, 0, 0), Ordering::Less),
        ((0, 7, 1), (0, 5, 2), Ordering::Greater),
        ((0, 5, 1), (0, 5, 2), Ordering::Less),
        ((0, 5, 2), (0, 5, 2), Ordering::Equal),
    ];
    for (one, other, expected) in rows {
        let order = order(rt.alloc(), one, other)?;
        assert!(rt; order == expected);
    }
    Ok(())
}

// Whether a task that waits for the task of this id is ready, beside `d`, which is DONE.
fn is_ready_behind(alloc: Global, awaited: &str) -> Result<bool, NoMemory> {
    let done = task(alloc, "d", nothing(alloc), Status::Done, None)?;
    let state = state_of(alloc, done)?;
    let needs = Needs {
        deps: only(alloc, id(alloc, awaited)?)?,
        workers: Seq::new(alloc),
    };
    let waiting = task(alloc, "w", needs, Status::Pending, None)?;
    Ok(is_ready(&state, &waiting))
}

#[test]
fn a_dependency_that_is_no_task_is_not_done(rt: HostRuntime) -> Result<(), Fail> {
    let behind_done = is_ready_behind(rt.alloc(), "d")?;
    assert!(rt; behind_done);
    let behind_none = is_ready_behind(rt.alloc(), "n")?;
    assert!(rt; !behind_none);
    Ok(())
}

// Whether a task is given again to the worker that runs `a`, and that knows of these.
fn is_given_again(alloc: Global, known: Option<Seq<TaskId>>) -> Result<bool, NoMemory> {
    let runner = worker(alloc, "w")?;
    let running = task(alloc, "a", nothing(alloc), Status::Running, Some(runner))?;
    let state = state_of(alloc, running)?;
    let ask = GetWork {
        worker: worker(alloc, "w")?,
        assistant: false,
        current_tasks: known,
    };
    let again = given_again(alloc, &ask, &state)?;
    Ok(again.is_some())
}

#[test]
fn a_task_is_given_again_to_who_does_not_know_of_it(rt: HostRuntime) -> Result<(), Fail> {
    let alloc = rt.alloc();
    let tells_nothing = is_given_again(alloc, None)?;
    assert!(rt; !tells_nothing);
    let knows_of_none = is_given_again(alloc, Some(Seq::new(alloc)))?;
    assert!(rt; knows_of_none);
    let knows_of_it = is_given_again(alloc, Some(only(alloc, id(alloc, "a")?)?))?;
    assert!(rt; !knows_of_it);
    Ok(())
}

// How many tasks the search of a worker goes over, where there is one, and `v` alone can run it.
fn walked(alloc: Global, word: &str) -> Result<usize, NoMemory> {
    let needs = Needs {
        deps: Seq::new(alloc),
        workers: only(alloc, worker(alloc, "v")?)?,
    };
    let pending = task(alloc, "a", needs, Status::Pending, None)?;
    let state = state_of(alloc, pending)?;
    let worker = worker(alloc, word)?;
    let tasks = walk(alloc, &worker, &state)?;
    Ok(tasks.len())
}

#[test]
fn a_trivial_search_goes_over_the_tasks_that_name_the_worker(rt: HostRuntime) -> Result<(), Fail> {
    let named = walked(rt.alloc(), "v")?;
    assert_eq!(rt; named, 1);
    let not_named = walked(rt.alloc(), "w")?;
    assert_eq!(rt; not_named, 0);
    Ok(())
}
