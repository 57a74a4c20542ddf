use super::*;
use std::process::Abort;

// A task as it is at 1,000, and what it is set to.
struct Row {
    from: Status,
    batch: &'static str,
    batchable: bool,
    disabled_at: Option<u64>,
    failed_at: Option<u64>,
    to: Status,
    // How it stands then.
    shown: &'static str,
}

// The task of a row.
fn task_of(alloc: Global, row: &Row) -> Result<TaskRec, NoMemory> {
    let mut task = match row.from {
        Status::Running | Status::BatchRunning => running(alloc, "t", row.from, row.batch)?,
        _ => task(alloc, "t", row.from)?,
    };
    task.batchable = row.batchable;
    task.disabled_at = row.disabled_at.map(Moment);
    if let Some(moment) = row.failed_at {
        fail_at(&mut task, moment)?;
    }
    Ok(task)
}

// How the task of a row stands behind its change.
fn shown_behind(alloc: Global, row: &Row) -> Result<String, NoMemory> {
    let mut tasks = Seq::new(alloc);
    tasks.push(task_of(alloc, row)?)?;
    let mut state = state(alloc, tasks);
    set(&mut state, alloc, &id(alloc, "t")?, row.to)?;
    match state.tasks.as_slice().first() {
        Some(task) => shown(alloc, task),
        None => Err(NoMemory),
    }
}

// The rows hold.
fn try_rows(rt: &impl Abort, alloc: Global, rows: &[Row]) -> Result<(), Fail> {
    for row in rows {
        let shown = shown_behind(alloc, row)?;
        assert_eq!(rt; shown.as_str(), row.shown);
    }
    Ok(())
}

// The first rule: a task that runs isn't disabled.
static NOT_DISABLED: [Row; 2] = [
    Row {
        from: Status::Running,
        batch: "",
        batchable: false,
        disabled_at: None,
        failed_at: None,
        to: Status::Disabled,
        shown: "Running 500, true Some(700) false, None 0, None None None",
    },
    Row {
        from: Status::BatchRunning,
        batch: "b",
        batchable: false,
        disabled_at: None,
        failed_at: None,
        to: Status::Disabled,
        shown: "BatchRunning 500, true Some(700) true, None 0, None None None",
    },
];

#[test]
fn who_runs_is_not_disabled(rt: HostRuntime) -> Result<(), Fail> {
    try_rows(&rt, rt.alloc(), &NOT_DISABLED)
}

// The second rule: who the scheduler disabled stays so, but for DONE, which forgives, and where it is disabled again.
static DISABLED_BY_THE_SCHEDULER: [Row; 9] = [
    Row {
        from: Status::Disabled,
        batch: "",
        batchable: false,
        disabled_at: Some(800),
        failed_at: Some(900),
        to: Status::Pending,
        shown: "Disabled 500, false None false, Some(900) 1, None Some(800) None",
    },
    Row {
        from: Status::Disabled,
        batch: "",
        batchable: false,
        disabled_at: Some(800),
        failed_at: Some(900),
        to: Status::Running,
        shown: "Disabled 500, false None false, Some(900) 1, None Some(800) None",
    },
    Row {
        from: Status::Disabled,
        batch: "",
        batchable: false,
        disabled_at: Some(800),
        failed_at: Some(900),
        to: Status::BatchRunning,
        shown: "Disabled 500, false None false, Some(900) 1, None Some(800) None",
    },
    Row {
        from: Status::Disabled,
        batch: "",
        batchable: false,
        disabled_at: Some(800),
        failed_at: Some(900),
        to: Status::Failed,
        shown: "Disabled 500, false None false, Some(900) 1, None Some(800) None",
    },
    Row {
        from: Status::Disabled,
        batch: "",
        batchable: false,
        disabled_at: Some(800),
        failed_at: Some(900),
        to: Status::Unknown,
        shown: "Disabled 500, false None false, Some(900) 1, None Some(800) None",
    },
    Row {
        from: Status::Disabled,
        batch: "",
        batchable: false,
        disabled_at: Some(800),
        failed_at: Some(900),
        to: Status::Disabled,
        shown: "Disabled 500, false None false, Some(900) 1, None None None",
    },
    Row {
        from: Status::Disabled,
        batch: "",
        batchable: false,
        disabled_at: Some(800),
        failed_at: Some(900),
        to: Status::Done,
        shown: "Done 1000, false None false, None 0, None None None",
    },
    Row {
        from: Status::Disabled,
        batch: "",
        batchable: false,
        disabled_at: None,
        failed_at: Some(900),
        to: Status::Done,
        shown: "Done 1000, false None false, None 0, None None None",
    },
    Row {
        from: Status::Failed,
        batch: "",
        batchable: false,
        disabled_at: None,
        failed_at: Some(900),
        to: Status::Done,
        shown: "Done 1000, false None false, Some(900) 1, None None None",
    },
];

#[test]
fn who_the_scheduler_disabled_stays(rt: HostRuntime) -> Result<(), Fail> {
    try_rows(&rt, rt.alloc(), &DISABLED_BY_THE_SCHEDULER)
}

// The fourth rule: a failure counts unless the task is disabled, and the second one within the hour disables.
static FAILED: [Row; 4] = [
    Row {
        from: Status::Pending,
        batch: "",
        batchable: false,
        disabled_at: None,
        failed_at: None,
        to: Status::Failed,
        shown: "Failed 1000, false None false, Some(1000) 1, Some(901000) None None",
    },
    Row {
        from: Status::Failed,
        batch: "",
        batchable: false,
        disabled_at: None,
        failed_at: Some(900),
        to: Status::Failed,
        shown: "Disabled 1000, false None false, Some(900) 2, None Some(1000) None",
    },
    Row {
        from: Status::Disabled,
        batch: "",
        batchable: false,
        disabled_at: None,
        failed_at: Some(900),
        to: Status::Failed,
        shown: "Failed 1000, false None false, Some(900) 1, Some(901000) None None",
    },
    Row {
        from: Status::Pending,
        batch: "",
        batchable: false,
        disabled_at: None,
        failed_at: Some(900),
        to: Status::Disabled,
        shown: "Disabled 1000, false None false, Some(900) 1, None None None",
    },
];

#[test]
fn failures_count_and_disable(rt: HostRuntime) -> Result<(), Fail> {
    try_rows(&rt, rt.alloc(), &FAILED)
}

// The fifth rule: what changes is dated, and who doesn't run has no worker, moment or batch.
static TURNED: [Row; 6] = [
    Row {
        from: Status::Pending,
        batch: "",
        batchable: false,
        disabled_at: None,
        failed_at: None,
        to: Status::Pending,
        shown: "Pending 500, false None false, None 0, None None None",
    },
    Row {
        from: Status::Pending,
        batch: "",
        batchable: false,
        disabled_at: None,
        failed_at: None,
        to: Status::Unknown,
        shown: "Unknown 1000, false None false, None 0, None None None",
    },
    Row {
        from: Status::Running,
        batch: "b",
        batchable: false,
        disabled_at: None,
        failed_at: None,
        to: Status::Running,
        shown: "Running 500, true Some(700) true, None 0, None None None",
    },
    Row {
        from: Status::BatchRunning,
        batch: "b",
        batchable: false,
        disabled_at: None,
        failed_at: None,
        to: Status::Running,
        shown: "Running 1000, true Some(700) true, None 0, None None None",
    },
    Row {
        from: Status::Running,
        batch: "",
        batchable: false,
        disabled_at: None,
        failed_at: None,
        to: Status::Pending,
        shown: "Pending 1000, false None false, None 0, None None None",
    },
    Row {
        from: Status::BatchRunning,
        batch: "b",
        batchable: false,
        disabled_at: None,
        failed_at: None,
        to: Status::Done,
        shown: "Done 1000, false None false, None 0, None None None",
    },
];

#[test]
fn who_stops_has_no_worker(rt: HostRuntime) -> Result<(), Fail> {
    try_rows(&rt, rt.alloc(), &TURNED)
}

// The sixth rule: who failed is tried again, and is removed where it was in a batch and can't be batched.
static RETRIED: [Row; 4] = [
    Row {
        from: Status::BatchRunning,
        batch: "b",
        batchable: false,
        disabled_at: None,
        failed_at: None,
        to: Status::Failed,
        shown: "Failed 1000, false None false, Some(1000) 1, Some(901000) None Some(1000)",
    },
    Row {
        from: Status::BatchRunning,
        batch: "b",
        batchable: true,
        disabled_at: None,
        failed_at: None,
        to: Status::Failed,
        shown: "Failed 1000, false None false, Some(1000) 1, Some(901000) None None",
    },
    Row {
        from: Status::Running,
        batch: "",
        batchable: false,
        disabled_at: None,
        failed_at: None,
        to: Status::Failed,
        shown: "Failed 1000, false None false, Some(1000) 1, Some(901000) None None",
    },
    Row {
        from: Status::BatchRunning,
        batch: "b",
        batchable: false,
        disabled_at: None,
        failed_at: Some(900),
        to: Status::Failed,
        shown: "Disabled 1000, false None false, Some(900) 2, None Some(1000) None",
    },
];

#[test]
fn who_failed_is_tried_again(rt: HostRuntime) -> Result<(), Fail> {
    try_rows(&rt, rt.alloc(), &RETRIED)
}
