use super::*;

// A claim of the batch `b`, two tasks of its batch, one of another batch, and one that waits.
fn batch(alloc: Global) -> Result<Seq<TaskRec>, NoMemory> {
    let mut tasks = Seq::new(alloc);
    tasks.push(running(alloc, "first", Status::BatchRunning, "b")?)?;
    tasks.push(running(alloc, "claim", Status::Running, "b")?)?;
    tasks.push(running(alloc, "other", Status::BatchRunning, "c")?)?;
    tasks.push(running(alloc, "second", Status::BatchRunning, "b")?)?;
    tasks.push(task(alloc, "waits", Status::Pending)?)?;
    Ok(tasks)
}

// The statuses behind the change of one of these tasks, in order.
fn statuses_behind(alloc: Global, word: &str, status: Status) -> Result<String, NoMemory> {
    let mut state = state(alloc, batch(alloc)?);
    set(&mut state, alloc, &id(alloc, word)?, status)?;
    let mut statuses = String::new(alloc);
    for task in state.tasks.as_slice() {
        let status = task.status;
        let next = format!(in alloc; "{status:?} ")?;
        statuses.push_str(next.as_str())?;
    }
    Ok(statuses)
}

// The third rule: a claim that changes takes the tasks of its batch along, and nobody else does.
static CHANGES: [(&str, Status, &str); 6] = [
    (
        "claim",
        Status::Done,
        "Done Done BatchRunning Done Pending ",
    ),
    (
        "claim",
        Status::Failed,
        "Failed Failed BatchRunning Failed Pending ",
    ),
    (
        "claim",
        Status::Running,
        "BatchRunning Running BatchRunning BatchRunning Pending ",
    ),
    (
        "claim",
        Status::Disabled,
        "BatchRunning Running BatchRunning BatchRunning Pending ",
    ),
    (
        "first",
        Status::Done,
        "Done Running BatchRunning BatchRunning Pending ",
    ),
    (
        "nobody",
        Status::Done,
        "BatchRunning Running BatchRunning BatchRunning Pending ",
    ),
];

#[test]
fn claims_take_their_batch_along(rt: HostRuntime) -> Result<(), Fail> {
    for (word, status, expected) in &CHANGES {
        let statuses = statuses_behind(rt.alloc(), word, *status)?;
        assert_eq!(rt; statuses.as_str(), *expected, "{word}");
    }
    Ok(())
}
