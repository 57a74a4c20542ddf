//! How much there is to do for a worker.
ghost use Rattle.std.specs.Prelude.{◌≡◌, ◌≤◌, [], ◌∷◌, ◌++◌, IfOk, OnOk, count_by, filter, length, not};
ghost use Rattle.lg_calls.specs.Look.{CanBeLookedAt};
ghost use Rattle.lg_calls.specs.Upstream.{is_hopeless};
ghost use Rattle.lg_calls.specs.Views.PendingCounts as spec;
ghost use Rattle.lg_json.specs.Tree.{tree_of};
ghost use Rattle.lg_views.specs.Fields.{fields_in};
ghost use Rattle.lg_views.specs.Lent.{lent};
ghost use Rattle.lg_views.specs.Listed.{CanBeListed};
ghost use Rattle.lg_views.specs.Runs.{runs_in};

use crate::builders::Object;
use crate::leaves::Words;
use crate::picking::{count_among, picked, picked_among};
use crate::runs::{Run, Runs, runs_among};
use crate::upstream::is_hopeless;
use crate::wishes::{EndingIn, Having, Left, Naming, NamingOne};
use crate::workers::{find_worker, is_disabled, state_word};
use lg_base::{NoMemory, WorkerId};
use lg_calls::{Look, Status, TaskRec};
use lg_json::Out;
use std::alloc::Global;

/// How much there is to do for a worker: of the tasks that name it and aren't hopeless, how many are PENDING or FAILED, how
/// many of these name it last, and how many it alone; those that are RUNNING, each with the worker that runs it, where that
/// one is known; and whether the worker gets work. For a worker that isn't known there is nothing, and it gets work. Each task
/// is looked at once, and for each open one that names the worker what it waits for is asked once. Refused only where there
/// is no memory.
pub fn count_pending<K: Look>(alloc: Global, state: &K, worker: &WorkerId) -> Result<Out, NoMemory>
    requires { CanBeListed (K.state state.now) }
    ensures { IfOk result (λ out. tree_of out ≡ spec.pending_counts worker.now (K.state state.now)) }
{
    let mut object = Object::new(alloc);
    put_counts_of(alloc, state, worker, &mut object)?;
    put_state(state, worker, &mut object)?;
    Ok(object.into_out())
}

/// Puts whether a worker gets work; one that isn't known does. Refused only where there is no memory.
pub(crate) fn put_state<K: Look>(
    state: &K,
    worker: &WorkerId,
    object: &mut Object,
) -> Result<(), NoMemory>
    requires { CanBeLookedAt (K.state state.now) }
    ensures { OnOk result (fields_in object.new ≡ fields_in object.old ++ spec.state_field worker.now (K.state state.now)) }
{
    let word = state_word(is_disabled(state.workers(), worker));
    object.put("worker_state", &Words(word))
}

/// Puts that nothing is counted. Refused only where there is no memory.
pub(crate) fn put_no_counts(worker: &WorkerId, object: &mut Object) -> Result<(), NoMemory>
    ensures { OnOk result (fields_in object.new ≡ fields_in object.old ++ spec.no_counts) }
{
    put_counts(worker, &[], &[], object)
}

/// Puts what is counted for a worker, which is nothing where it isn't known. Refused only where there is no memory.
pub(crate) fn put_counts_of<K: Look>(
    alloc: Global,
    state: &K,
    worker: &WorkerId,
    object: &mut Object,
) -> Result<(), NoMemory>
    requires { CanBeListed (K.state state.now) }
    ensures { OnOk result (fields_in object.new ≡ fields_in object.old ++ spec.counts_of worker.now (K.state state.now)) }
{
    match find_worker(state.workers(), worker) {
        None => put_no_counts(worker, object),
        Some(_) => put_known(alloc, state, worker, object),
    }
}

// What is counted for a worker that is known.
fn put_known<K: Look>(
    alloc: Global,
    state: &K,
    worker: &WorkerId,
    object: &mut Object,
) -> Result<(), NoMemory>
    requires { CanBeListed (K.state state.now) }
    ensures { let s = K.state state.now in OnOk result (fields_in object.new ≡ fields_in object.old ++ spec.known_counts worker.now (spec.left_for worker.now s.tasks) s) }
{
    let counted = counted_for(alloc, state, worker)?;
    let tasks = counted.as_slice();
    let left = picked_among(alloc, tasks, &Left)?;
    let running = picked_among(alloc, tasks, &Having(Status::Running))?;
    let runs = runs_among(alloc, state, running.as_slice())?;
    put_counts(worker, left.as_slice(), runs.as_slice(), object)
}

// The tasks that count for a worker.
fn counted_for<'a, K: Look>(
    alloc: Global,
    state: &'a K,
    worker: &WorkerId,
) -> Result<Vec<&'a TaskRec>, NoMemory>
    requires { CanBeLookedAt (K.state state.now) }
    ensures { let tasks = (K.state state.now).tasks in IfOk result (λ found. lent found.items ≡ filter (spec.counts_for worker.now tasks) tasks) }
{
    let named = picked(alloc, state, &Naming(worker))?;
    not_hopeless(alloc, state, named.as_slice())
}

// Those of some tasks that aren't hopeless.
fn not_hopeless<'a, K: Look>(
    alloc: Global,
    state: &K,
    tasks: &[&'a TaskRec],
) -> Result<Vec<&'a TaskRec>, NoMemory>
    requires { CanBeLookedAt (K.state state.now) }
    ensures { IfOk result (λ found. lent found.items ≡ filter (λ task. not (is_hopeless (K.state state.now).tasks task)) (lent tasks.now)) }
{
    let mut found = Vec::new(alloc);
    for task in tasks {
        push_hopeful(alloc, state, task, &mut found)?;
    }
    Ok(found)
}

fn push_hopeful<'a, K: Look>(
    alloc: Global,
    state: &K,
    task: &'a TaskRec,
    found: &mut Vec<&'a TaskRec>,
) -> Result<(), NoMemory>
    requires { CanBeLookedAt (K.state state.now) }
    ensures { OnOk result (lent found.new.items ≡ lent found.old.items ++ filter (λ task. not (is_hopeless (K.state state.now).tasks task)) (task.now ∷ [])) }
{
    if is_hopeless(alloc, state, task)? {
        Ok(())
    } else {
        Ok(found.push(task)?)
    }
}

// Three numbers of tasks, and what runs.
fn put_counts(
    worker: &WorkerId,
    left: &[&TaskRec],
    runs: &[Run],
    object: &mut Object,
) -> Result<(), NoMemory>
    requires { length left.now ≤ 1000000 }
    ensures { let these = lent left.now in let shown = spec.count_fields (count_by (spec.is_last_of worker.now) these) (length these) (count_by spec.names_one these) (runs_in runs.now) in OnOk result (fields_in object.new ≡ fields_in object.old ++ shown) }
{
    object.put(
        "n_pending_last_scheduled",
        &count_among(left, &EndingIn(worker)),
    )?;
    object.put("n_pending_tasks", &(left.len() as u64))?;
    object.put("n_unique_pending", &count_among(left, &NamingOne))?;
    object.put("running_tasks", &Runs(runs))
}
