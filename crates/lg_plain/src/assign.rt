//! A task is given to a worker.
ghost use Rattle.std.specs.Prelude.{◌≡◌, None, IsTrue, OnErr, OnOk, if◌then◌else◌, position};
ghost use Rattle.lg_calls.specs.Running.{run_by};
ghost use Rattle.lg_calls.specs.Tasks.{has_id, have_distinct_ids, change_task};
ghost use Rattle.lg_calls.specs.Valid.{IsValidState};
ghost use Rattle.lg_calls.specs.Work.Assigning.{with_changed, assigned, running_since, assigned_again};

use crate::change::set;
use lg_base::{Moment, NoMemory, Seq, TaskId, WorkerId};
use lg_calls::{State, Status, TaskRec, laws};
use std::alloc::Global;
use std::mem;

/// The task of an id becomes RUNNING, by a worker, from the moment of the state on. All memory is taken before the first
/// change: a refusal leaves the state as it was.
pub(crate) fn assign(
    state: &mut State,
    alloc: Global,
    worker: &WorkerId,
    id: &TaskId,
) -> Result<(), NoMemory>
    requires { IsValidState state.old }
    ensures ok { OnOk result (state.new ≡ assigned worker.now id.now state.old) }
    ensures err { OnErr result (state.new ≡ state.old) }
{
    laws::ids_stay_distinct();
    let worker = worker.clone()?;
    set(state, alloc, id, Status::Running)?;
    begin(state, alloc, id, worker);
    Ok(())
}

// The task of an id is run by a worker, from the moment of the state on.
fn begin(state: &mut State, alloc: Global, id: &TaskId, worker: WorkerId)
    requires { IsTrue (have_distinct_ids state.old.tasks) }
    ensures { state.new ≡ with_changed id.now (run_by worker state.old.moment None) state.old }
{
    let now = state.moment;
    let mut tasks = mem::replace(&mut state.tasks, Seq::new(alloc)).into_vec();
    begin_in(tasks.as_mut_slice(), id, worker, now);
    state.tasks = Seq::from_vec(tasks);
}

fn begin_in(tasks: &mut [TaskRec], id: &TaskId, worker: WorkerId, now: Moment)
    requires { IsTrue (have_distinct_ids tasks.old) }
    ensures { tasks.new ≡ change_task id.now (run_by worker now None) tasks.old }
{
    match place_of(tasks, id) {
        Some(place) => begin_alone(&mut tasks[place], worker, now),
        None => (),
    }
}

fn begin_alone(task: &mut TaskRec, worker: WorkerId, now: Moment)
    ensures { task.new ≡ run_by worker now None task.old }
{
    task.worker_running = Some(worker);
    task.time_running = Some(now);
    task.batch = None;
}

// The place of the task of an id, if there is one.
fn place_of(tasks: &[TaskRec], id: &TaskId) -> Option<usize>
    ensures { result ≡ position (has_id id.now) tasks.now }
{
    tasks.iter().position(|task| task.has_id(id))
}

/// The task of an id runs from the moment of the state on, and stays as it is else. It takes no memory.
pub(crate) fn assign_again(state: &mut State, alloc: Global, id: &TaskId)
    ensures { state.new ≡ assigned_again id.now state.old }
{
    let now = state.moment;
    let mut tasks = mem::replace(&mut state.tasks, Seq::new(alloc)).into_vec();
    run_each_on(tasks.as_mut_slice(), id, now);
    state.tasks = Seq::from_vec(tasks);
}

fn run_each_on(tasks: &mut [TaskRec], id: &TaskId, now: Moment)
    ensures { tasks.new ≡ change_task id.now (running_since now) tasks.old }
{
    for task in tasks.iter_mut() {
        run_on(task, id, now);
    }
}

// A task that has the id runs from a moment on.
fn run_on(task: &mut TaskRec, id: &TaskId, now: Moment)
    ensures { task.new ≡ (if has_id id.now task.old then running_since now task.old else task.old) }
{
    if task.has_id(id) {
        task.time_running = Some(now);
    }
}
