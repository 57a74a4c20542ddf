//! The requests of workers that are about themselves.
ghost use Rattle.std.specs.Prelude.{◌≡◌, fold, filter, map, not, OnOk};
ghost use Rattle.std.specs.BTreeSet.{replace_key};
ghost use Rattle.lg_json.specs.Tree.{null};
ghost use Rattle.lg_calls.specs.Methods.AddWorker.{info_cmp, informed, worker_added};
ghost use Rattle.lg_calls.specs.Methods.DisableWorker.{without_worker, worker_disabled};
ghost use Rattle.lg_calls.specs.Methods.Ping.{no_messages};
ghost use Rattle.lg_calls.specs.Order.{is_same};
ghost use Rattle.lg_calls.specs.Outcome.{replied};
ghost use Rattle.lg_calls.specs.Workers.{touched};
ghost use Rattle.lg_plain.specs.Requests.{Comes};

use super::replies::no_messages;
use crate::adding::places::put;
use crate::adding::touching::{known_or_new, put_worker, touch};
use lg_base::{Name, NoMemory, Seq, WorkerId};
use lg_calls::{AddWorker, Info, Reply, State, TaskRec, WorkerRec};
use lg_json::Out;
use std::alloc::Global;
use std::mem;

/// A worker says that it is there.
pub(super) fn ping(state: &mut State, alloc: Global, worker: &WorkerId) -> Result<Reply, NoMemory>
    ensures { Comes state.old (touched worker.now state.old, replied no_messages) state.new result }
{
    let reply = no_messages(alloc)?;
    touch(state, alloc, worker)?;
    Ok(reply)
}

/// A worker tells of itself: what it told before under the same names is replaced. One that isn't known is made.
pub(super) fn add_worker(
    state: &mut State,
    alloc: Global,
    ask: &AddWorker,
) -> Result<Reply, NoMemory>
    ensures { Comes state.old (worker_added ask.now state.old, replied null) state.new result }
{
    let mut worker = known_or_new(alloc, state.workers.as_slice(), &ask.worker, state.moment)?;
    inform(&mut worker, alloc, ask.info.as_slice())?;
    put_worker(state, alloc, worker)?;
    Ok(Reply(Out::Null))
}

/// What is told of a worker. Where there is no memory the worker is left anyhow.
pub(super) fn inform(
    worker: &mut WorkerRec,
    alloc: Global,
    infos: &[(Name, Info)],
) -> Result<(), NoMemory>
    ensures { OnOk result (worker.new ≡ informed infos.now worker.old) }
{
    let mut known = mem::replace(&mut worker.info, Seq::new(alloc)).into_vec();
    let outcome = put_each(&mut known, infos);
    worker.info = Seq::from_vec(known);
    outcome
}

fn put_each(known: &mut Vec<(Name, Info)>, infos: &[(Name, Info)]) -> Result<(), NoMemory>
    ensures { OnOk result (known.new.items ≡ fold (replace_key info_cmp) known.old.items infos.now) }
{
    for pair in infos {
        put(known, pair.clone()?)?;
    }
    Ok(())
}

/// A worker gets no more work, and leaves the tasks that it can run. One that isn't known is made.
pub(super) fn disable_worker(
    state: &mut State,
    alloc: Global,
    id: &WorkerId,
) -> Result<Reply, NoMemory>
    ensures { Comes state.old (worker_disabled id.now state.old, replied null) state.new result }
{
    let mut worker = known_or_new(alloc, state.workers.as_slice(), id, state.moment)?;
    worker.disabled = true;
    put_worker(state, alloc, worker)?;
    leave_tasks(state, alloc, id);
    Ok(Reply(Out::Null))
}

// A worker leaves all tasks. It takes no memory.
fn leave_tasks(state: &mut State, alloc: Global, id: &WorkerId)
    ensures { state.new ≡ record state.old { tasks = map (without_worker id.now) state.old.tasks } }
{
    let mut tasks = mem::replace(&mut state.tasks, Seq::new(alloc)).into_vec();
    leave_each(tasks.as_mut_slice(), alloc, id);
    state.tasks = Seq::from_vec(tasks);
}

fn leave_each(tasks: &mut [TaskRec], alloc: Global, id: &WorkerId)
    ensures { tasks.new ≡ map (without_worker id.now) tasks.old }
{
    for task in tasks.iter_mut() {
        leave(task, alloc, id);
    }
}

fn leave(task: &mut TaskRec, alloc: Global, id: &WorkerId)
    ensures { task.new ≡ without_worker id.now task.old }
{
    let workers = mem::replace(&mut task.workers, Seq::new(alloc));
    task.workers = without(workers, id);
}

// The workers but this one.
fn without(workers: Seq<WorkerId>, id: &WorkerId) -> Seq<WorkerId>
    ensures { result ≡ filter (λ other. not (is_same id.now other)) workers }
{
    let mut workers = workers.into_vec();
    workers.retain(|worker| !id.cmp(worker).is_eq());
    Seq::from_vec(workers)
}
