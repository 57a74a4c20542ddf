//! Raised priorities on small graphs, each a table, and along a chain.
ghost use Rattle.std.specs.Prelude.{IsTrue, IfOk};
ghost use Rattle.lg_calls.specs.Tasks.{have_distinct_ids};

use super::raise;
use crate::tests::{id, put, task};
use lg_base::{NoMemory, TaskId};
use lg_calls::{Status, TaskRec};
use std::alloc::Global;
use std::process::Abort;
use std::test::Fail;

// A task of a graph: its id, the ids of its dependencies, and its priority before and behind the raise.
type Row = (&'static str, &'static [&'static str], i64, i64);

fn task_of(alloc: Global, row: &Row) -> Result<TaskRec, NoMemory> {
    let mut task = task(alloc, row.0, Status::Pending)?;
    task.priority = row.2;
    for dep in row.1 {
        task.deps.push(id(alloc, dep)?)?;
    }
    Ok(task)
}

fn tasks_of(alloc: Global, rows: &[Row]) -> Result<Vec<TaskRec>, NoMemory>
    ensures { IfOk result (λ tasks. IsTrue (have_distinct_ids tasks.items)) }
{
    let mut tasks = Vec::new(alloc);
    for row in rows {
        put(&mut tasks, task_of(alloc, row)?)?;
    }
    Ok(tasks)
}

// The tasks of a graph behind a raise to the priority of the first.
fn raised(alloc: Global, rows: &[Row]) -> Result<Vec<TaskRec>, NoMemory> {
    let mut tasks = tasks_of(alloc, rows)?;
    if let Some(first) = rows.first() {
        let id = id(alloc, first.0)?;
        raise(tasks.as_mut_slice(), alloc, &id, first.2)?;
    }
    Ok(tasks)
}

// The rows hold.
fn try_rows(rt: &impl Abort, alloc: Global, rows: &[Row]) -> Result<(), Fail> {
    let tasks = raised(alloc, rows)?;
    assert_eq!(rt; tasks.len(), rows.len());
    for (task, row) in tasks.iter().zip(rows) {
        assert_eq!(rt; task.id.as_str(), row.0);
        assert_eq!(rt; task.priority, row.3);
    }
    Ok(())
}

// It goes on by both ways of a diamond, and to nobody beside it; a dependency that is no task is passed over.
static DIAMOND: [Row; 5] = [
    ("a", &["b", "c", "n"], 7, 7),
    ("b", &["d"], 1, 7),
    ("c", &["d", "m"], 6, 7),
    ("d", &[], -3, 7),
    ("e", &["d"], 2, 2),
];

// It goes round a cycle, and round a task that waits for itself.
static CYCLE: [Row; 3] = [
    ("a", &["b"], 4, 4),
    ("b", &["b", "c"], 1, 4),
    ("c", &["a"], 3, 4),
];

// It stops at a task of its own or a higher priority, and reaches what another way leads to.
static STOPS: [Row; 6] = [
    ("a", &["b", "c", "d"], 4, 4),
    ("b", &["e"], 4, 4),
    ("c", &["e"], 9, 9),
    ("d", &["f"], 3, 4),
    ("e", &[], 1, 1),
    ("f", &["c"], 0, 4),
];

#[test]
fn urgency_goes_along_dependencies(rt: HostRuntime) -> Result<(), Fail> {
    try_rows(&rt, rt.alloc(), &DIAMOND)?;
    try_rows(&rt, rt.alloc(), &CYCLE)?;
    try_rows(&rt, rt.alloc(), &STOPS)
}

// The id of a task of the chain.
fn numbered(alloc: Global, place: u32) -> Result<TaskId, NoMemory> {
    let word = format!(in alloc; "t{place}")?;
    id(alloc, word.as_str())
}

// A task of the chain that waits for the one before, if there is one.
fn link(alloc: Global, place: u32) -> Result<TaskRec, NoMemory> {
    let mut task = task(alloc, "", Status::Pending)?;
    task.id = numbered(alloc, place)?;
    if place > 0 {
        task.deps.push(numbered(alloc, place - 1)?)?;
    }
    Ok(task)
}

// A chain of so many tasks.
fn chain(alloc: Global, count: u32) -> Result<Vec<TaskRec>, NoMemory>
    ensures { IfOk result (λ tasks. IsTrue (have_distinct_ids tasks.items)) }
{
    let mut tasks = Vec::new(alloc);
    for place in 0..count {
        put(&mut tasks, link(alloc, place)?)?;
    }
    Ok(tasks)
}

// All but the last, which has priority 0 itself, are raised.
#[test]
fn urgency_goes_along_a_long_chain(rt: HostRuntime) -> Result<(), Fail> {
    let mut tasks = chain(rt.alloc(), 1_000)?;
    let last = numbered(rt.alloc(), 999)?;
    raise(tasks.as_mut_slice(), rt.alloc(), &last, 3)?;
    let raised = tasks.iter().filter(|task| task.priority == 3).count();
    assert_eq!(rt; (tasks.len(), raised), (1_000, 999));
    Ok(())
}
