//! What a report makes of a task, each step of `add_task` in a table.
ghost use Rattle.std.specs.Prelude.{◌≡◌, ◌+◌, ◌<◌, ◌^◌, IsTrue, IfOk};
ghost use Rattle.lg_calls.specs.Methods.AddTask.{add_task_in_range};
ghost use Rattle.lg_calls.specs.Tasks.{have_distinct_ids};

use super::adding::{ask, ids};
use super::*;
use crate::adding::add_task;
use lg_calls::{AddTask, Reported, StepFault};

/// A task `t` as it stands, whether in a batch; who reports what of it, with a new dependency or not; and where it then
/// stands.
type Row = (
    Status,
    &'static str,
    &'static str,
    Reported,
    bool,
    &'static str,
);

/// The status counts where the task doesn't run, where its own worker reports of the run, and where dependencies came up.
static REPORTS: [Row; 11] = [
    (
        Status::Pending,
        "",
        "w",
        Reported::Running,
        false,
        "Running 1000, true Some(1000) false, None 0, None None None",
    ),
    (
        Status::Running,
        "",
        "w",
        Reported::Done,
        false,
        "Done 1000, false None false, None 0, None None None",
    ),
    (
        Status::Running,
        "",
        "v",
        Reported::Done,
        false,
        "Running 500, true Some(700) false, None 0, None None None",
    ),
    (
        Status::Running,
        "",
        "w",
        Reported::Pending,
        false,
        "Running 500, true Some(700) false, None 0, None None None",
    ),
    (
        Status::Running,
        "",
        "v",
        Reported::Pending,
        true,
        "Pending 1000, false None false, None 0, None None None",
    ),
    (
        Status::Running,
        "",
        "w",
        Reported::Failed,
        false,
        "Failed 1000, false None false, Some(1000) 1, Some(901000) None None",
    ),
    (
        Status::BatchRunning,
        "b",
        "w",
        Reported::Running,
        false,
        "Running 1000, true Some(700) true, None 0, None None None",
    ),
    (
        Status::Unknown,
        "",
        "w",
        Reported::Suspended,
        false,
        "Pending 1000, false None false, None 0, None None None",
    ),
    (
        Status::Disabled,
        "",
        "w",
        Reported::Pending,
        false,
        "Pending 1000, false None false, None 0, None None None",
    ),
    (
        Status::Failed,
        "",
        "w",
        Reported::Disabled,
        false,
        "Disabled 1000, false None false, None 0, None None None",
    ),
    (
        Status::Pending,
        "",
        "w",
        Reported::Unknown,
        false,
        "Unknown 1000, false None false, None 0, None None None",
    ),
];

// Task `t` of this status; one that runs is run by worker `w` since 700.
fn standing(alloc: Global, status: Status, batch: &str) -> Result<TaskRec, NoMemory> {
    if matches!(status, Status::Running | Status::BatchRunning) {
        running(alloc, "t", status, batch)
    } else {
        task(alloc, "t", status)
    }
}

// A state with one task.
fn state_of(alloc: Global, task: TaskRec) -> Result<State, NoMemory>
    ensures distinct { IfOk result (λ state. IsTrue (have_distinct_ids state.tasks)) }
    ensures moment { IfOk result (λ state. state.moment.0 ≡ 1000) }
    ensures delay { IfOk result (λ state. state.settings.retry_delay ≡ 900000) }
{
    let mut tasks = Seq::new(alloc);
    tasks.push(task)?;
    let mut state = state(alloc, tasks);
    state.next = 1;
    Ok(state)
}

// What a worker reports of `t`, with one new dependency where some came up.
fn report(alloc: Global, worker: &str, status: Reported, more: bool) -> Result<AddTask, NoMemory>
    ensures { IfOk result (λ ask. IsTrue (add_task_in_range ask)) }
{
    let mut ask = ask(alloc, "t", status)?;
    ask.worker = WorkerId::from(text(alloc, worker)?);
    if more {
        ask.new_deps = ids(alloc, ["d"].as_slice())?;
    }
    Ok(ask)
}

// The first task behind a report.
fn first_behind(alloc: Global, state: &mut State, ask: &AddTask) -> Result<String, NoMemory>
    requires retry_fits { state.old.moment.0 + state.old.settings.retry_delay < 2 ^ 64 }
    requires in_range { IsTrue (add_task_in_range ask.now) }
    requires distinct { IsTrue (have_distinct_ids state.old.tasks) }
{
    match add_task(state, alloc, ask) {
        Ok(()) | Err(StepFault::Full(_)) => {}
        Err(StepFault::NoMemory) => return Err(NoMemory),
    }
    match state.tasks.as_slice().first() {
        Some(task) => shown(alloc, task),
        None => Ok(String::new(alloc)),
    }
}

fn reported(alloc: Global, row: &Row) -> Result<String, NoMemory> {
    let (status, batch, worker, report_of, more, _) = *row;
    let mut state = state_of(alloc, standing(alloc, status, batch)?)?;
    let ask = report(alloc, worker, report_of, more)?;
    first_behind(alloc, &mut state, &ask)
}

#[test]
fn reports_count_where_they_may(rt: HostRuntime) -> Result<(), Fail> {
    for row in &REPORTS {
        let shown = reported(rt.alloc(), row)?;
        assert_eq!(rt; shown.as_str(), row.5, "{:?} {:?}", row.0, row.3);
    }
    Ok(())
}
