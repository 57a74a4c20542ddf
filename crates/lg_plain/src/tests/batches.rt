//! A claim takes the resources of its batch, and what is reported of it is true of the whole batch.
ghost use Rattle.std.specs.Prelude.{IfOk, IsTrue};
ghost use Rattle.lg_calls.specs.Methods.AddTask.{add_task_in_range};
ghost use Rattle.lg_calls.specs.Tasks.{have_distinct_ids};

use super::adding::ask;
use super::*;
use crate::adding::add_task;
use lg_calls::{AddTask, Reported, StepFault};

// A task that runs in batch `b` and takes one `db`.
fn in_batch(alloc: Global, word: &str, status: Status) -> Result<TaskRec, NoMemory> {
    let mut task = running(alloc, word, status, "b")?;
    let db = text(alloc, "db")?;
    task.resources.put(Name::from(db), 1)?;
    Ok(task)
}

// The batch of `d1` and `d2`.
fn batch(alloc: Global) -> Result<Vec<TaskRec>, NoMemory>
    ensures { IfOk result (λ tasks. IsTrue (have_distinct_ids tasks.items)) }
{
    let mut tasks = Vec::new(alloc);
    put(&mut tasks, in_batch(alloc, "d1", Status::BatchRunning)?)?;
    put(&mut tasks, in_batch(alloc, "d2", Status::BatchRunning)?)?;
    Ok(tasks)
}

// The same with their claim `k`.
fn claimed(alloc: Global) -> Result<Vec<TaskRec>, NoMemory>
    ensures { IfOk result (λ tasks. IsTrue (have_distinct_ids tasks.items)) }
{
    let mut tasks = batch(alloc)?;
    put(&mut tasks, in_batch(alloc, "k", Status::Running)?)?;
    Ok(tasks)
}

// Worker `w` reports `k` in batch `b`, without resources.
fn claim(alloc: Global, status: Reported) -> Result<AddTask, NoMemory>
    ensures { IfOk result (λ ask. IsTrue (add_task_in_range ask)) }
{
    let mut ask = ask(alloc, "k", status)?;
    ask.batch_id = Some(text(alloc, "b")?);
    Ok(ask)
}

// Each task with its status and how much `db` it takes, behind a report of `k`.
fn behind(alloc: Global, tasks: Vec<TaskRec>, status: Reported) -> Result<String, NoMemory>
    requires { IsTrue (have_distinct_ids tasks.items) }
{
    let mut state = state(alloc, Seq::from_vec(tasks));
    state.next = 3;
    let ask = claim(alloc, status)?;
    match add_task(&mut state, alloc, &ask) {
        Ok(()) | Err(StepFault::Full(_)) => taken(alloc, &state),
        Err(StepFault::NoMemory) => Err(NoMemory),
    }
}

fn taken(alloc: Global, state: &State) -> Result<String, NoMemory> {
    let name = Name::from(text(alloc, "db")?);
    let mut shown = String::new(alloc);
    for task in state.tasks.as_slice() {
        let id = task.id.as_str();
        let status = task.status;
        let db = task.resources.get(&name);
        let line = format!(in alloc; "{id} {status:?} {db}; ")?;
        shown.push_str(line.as_str())?;
    }
    Ok(shown)
}

// A claim that is done takes what its last report gives, which is nothing.
#[test]
fn a_claim_is_its_batch(rt: HostRuntime) -> Result<(), Fail> {
    let alloc = rt.alloc();
    let shown = behind(alloc, batch(alloc)?, Reported::Running)?;
    assert_eq!(rt;
        shown.as_str(),
        "d1 BatchRunning 1; d2 BatchRunning 1; k Running 1; "
    );
    let shown = behind(alloc, claimed(alloc)?, Reported::Done)?;
    assert_eq!(rt; shown.as_str(), "d1 Done 1; d2 Done 1; k Done 0; ");
    Ok(())
}
