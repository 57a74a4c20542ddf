use super::*;

// How a task of this status that failed at 900 stands behind its enabling at 1,000.
fn shown_enabled(
    alloc: Global,
    status: Status,
    disabled_at: Option<u64>,
) -> Result<String, NoMemory> {
    let mut task = task(alloc, "t", status)?;
    task.disabled_at = disabled_at.map(Moment);
    fail_at(&mut task, 900)?;
    let mut tasks = Seq::new(alloc);
    tasks.push(task)?;
    let mut state = state(alloc, tasks);
    enable(&mut state, alloc, &id(alloc, "t")?)?;
    match state.tasks.as_slice().first() {
        Some(task) => shown(alloc, task),
        None => Err(NoMemory),
    }
}

// Whoever disabled a task, it counts as failed behind its enabling, without a failure; one that isn't disabled gets one.
static ENABLED: [(Status, Option<u64>, &str); 3] = [
    (
        Status::Disabled,
        Some(800),
        "Failed 1000, false None false, None 0, Some(901000) None None",
    ),
    (
        Status::Disabled,
        None,
        "Failed 1000, false None false, None 0, Some(901000) None None",
    ),
    (
        Status::Pending,
        None,
        "Failed 1000, false None false, Some(1000) 1, Some(901000) None None",
    ),
];

#[test]
fn who_is_enabled_has_no_failures(rt: HostRuntime) -> Result<(), Fail> {
    for (status, disabled_at, expected) in &ENABLED {
        let shown = shown_enabled(rt.alloc(), *status, *disabled_at)?;
        assert_eq!(rt; shown.as_str(), *expected);
    }
    Ok(())
}
