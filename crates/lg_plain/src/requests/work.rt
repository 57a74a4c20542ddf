//! A worker asks for work.
ghost use Rattle.std.specs.Prelude.{◌≡◌, IfOk, OnErr, OnOk};
ghost use Rattle.std.specs.Option.{option_copied};
ghost use Rattle.lg_calls.specs.Methods.AddWorker.{informed};
ghost use Rattle.lg_calls.specs.Methods.GetWork.{assistant_info, assistant_marked, given_to, heard_asking, newly_chosen, newly_given, work_given};
ghost use Rattle.lg_calls.specs.Valid.{IsValidState};
ghost use Rattle.lg_plain.specs.Requests.{Comes, ComesButForWorkers};

use super::replies::named;
use super::workers::inform;
use crate::adding::touching::{heard_worker, is_disabled, known_or_new, put_worker};
use crate::assign::{assign, assign_again};
use lg_base::{NoMemory, Seq};
use lg_calls::{GetWork, Info, Reply, State, TaskRec, WorkerRec};
use lg_views::{nothing_to_do, work_reply};
use lg_work::{first_candidate, given_again};
use std::alloc::Global;

/// A worker asks for work: it is heard of, and marked as an assistant where it asks as one. A worker that isn't disabled gets
/// the first task that it lost again, and else, where the scheduler isn't paused, the first task that can be given. The reply
/// counts what there was to do before the task was given. A want of memory leaves the state as it was.
pub(super) fn get_work(state: &mut State, alloc: Global, ask: &GetWork) -> Result<Reply, NoMemory>
    requires { IsValidState state.old }
    ensures { Comes state.old (work_given ask.now state.old) state.new result }
{
    let workers = copy_of(&state.workers)?;
    match give(state, alloc, ask) {
        Ok(reply) => Ok(reply),
        Err(NoMemory) => {
            state.workers = workers;
            Err(NoMemory)
        }
    }
}

fn copy_of(workers: &Seq<WorkerRec>) -> Result<Seq<WorkerRec>, NoMemory>
    ensures { IfOk result (λ copy. copy ≡ workers.now) }
{
    Ok(workers.clone()?)
}

// What a worker gets that asks. Where there is no memory the workers are left anyhow, and nothing else changes.
fn give(state: &mut State, alloc: Global, ask: &GetWork) -> Result<Reply, NoMemory>
    requires { IsValidState state.old }
    ensures { ComesButForWorkers state.old (work_given ask.now state.old) state.new result }
{
    hear_asking(state, alloc, ask)?;
    if is_disabled(state.workers.as_slice(), &ask.worker) {
        let reply = nothing_to_do(alloc, state, &ask.worker)?;
        return Ok(Reply(reply));
    }
    mark_assistant(state, alloc, ask)?;
    give_to(state, alloc, ask)
}

// A worker is heard of at the moment of the state, and asks for work; one that isn't known is made. Where there is no memory
// nothing changes.
fn hear_asking(state: &mut State, alloc: Global, ask: &GetWork) -> Result<(), NoMemory>
    requires { IsValidState state.old }
    ensures heard { OnOk result (state.new ≡ heard_asking ask.now state.old) }
    ensures valid { OnOk result (IsValidState state.new) }
    ensures err { OnErr result (state.new ≡ state.old) }
{
    let now = state.moment;
    let mut worker = heard_worker(alloc, state.workers.as_slice(), &ask.worker, now)?;
    worker.last_get_work = Some(now);
    put_worker(state, alloc, worker)
}

// Who asks as an assistant is one from then on. Where there is no memory nothing changes.
fn mark_assistant(state: &mut State, alloc: Global, ask: &GetWork) -> Result<(), NoMemory>
    requires { IsValidState state.old }
    ensures marked { OnOk result (state.new ≡ assistant_marked ask.now state.old) }
    ensures valid { OnOk result (IsValidState state.new) }
    ensures err { OnErr result (state.new ≡ state.old) }
{
    if !ask.assistant {
        return Ok(());
    }
    let mut worker = known_or_new(alloc, state.workers.as_slice(), &ask.worker, state.moment)?;
    tell_assistant(&mut worker, alloc)?;
    put_worker(state, alloc, worker)
}

// Of a worker it is told that it is an assistant. Where there is no memory the worker is left anyhow.
fn tell_assistant(worker: &mut WorkerRec, alloc: Global) -> Result<(), NoMemory>
    ensures { OnOk result (worker.new ≡ informed assistant_info worker.old) }
{
    let told = [(named(alloc, "assistant")?, Info::Truth(true))];
    inform(worker, alloc, &told)
}

// A worker that isn't disabled gets work. Where there is no memory nothing changes.
fn give_to(state: &mut State, alloc: Global, ask: &GetWork) -> Result<Reply, NoMemory>
    requires { IsValidState state.old }
    ensures { Comes state.old (given_to ask.now state.old) state.new result }
{
    let Some(task) = given_again(alloc, ask, state)? else {
        return give_anew(state, alloc, ask);
    };
    let reply = work_reply(alloc, state, &ask.worker, Some(task))?;
    let id = task.id.clone()?;
    assign_again(state, alloc, &id);
    Ok(Reply(reply))
}

// A worker that lost nothing gets a task anew, where there is one for it. Where there is no memory nothing changes.
fn give_anew(state: &mut State, alloc: Global, ask: &GetWork) -> Result<Reply, NoMemory>
    requires { IsValidState state.old }
    ensures { Comes state.old (newly_given ask.now state.old) state.new result }
{
    let chosen = newly_chosen(alloc, ask, state)?;
    let reply = work_reply(alloc, state, &ask.worker, chosen)?;
    if let Some(task) = chosen {
        let id = task.id.clone()?;
        assign(state, alloc, &ask.worker, &id)?;
    }
    Ok(Reply(reply))
}

// The first task that can be given, where the scheduler isn't paused.
fn newly_chosen<'a>(
    alloc: Global,
    ask: &GetWork,
    state: &'a State,
) -> Result<Option<&'a TaskRec>, NoMemory>
    requires { IsValidState state.now }
    ensures { IfOk result (λ task. option_copied task ≡ newly_chosen ask.now state.now) }
{
    if state.paused {
        Ok(None)
    } else {
        first_candidate(alloc, ask, state)
    }
}
