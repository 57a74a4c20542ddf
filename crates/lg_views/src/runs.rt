//! The tasks that run, each with the worker that runs it.
ghost use Rattle.std.specs.Prelude.{◌≡◌, [], ◌∷◌, ◌++◌, IfOk, OnOk};
ghost use Rattle.std.specs.Option.{option_copied};
ghost use Rattle.lg_calls.specs.Look.{CanBeLookedAt};
ghost use Rattle.lg_calls.specs.Views.PendingCounts.{run_shown, runner_of};
ghost use Rattle.lg_views.specs.Lent.{lent};
ghost use Rattle.lg_views.specs.Runs.{runs_in, runs_of};

use crate::builders::{Object, Shown, list_of};
use crate::leaves::ByName;
use crate::workers::find_worker;
use lg_base::NoMemory;
use lg_calls::{Look, TaskRec, WorkerRec};
use lg_json::Out;
use std::alloc::Global;

/// A task that runs, and the worker that runs it.
#[derive(Drop)]
pub(crate) struct Run<'a> {
    task: &'a TaskRec,
    runner: &'a WorkerRec,
}

impl Shown for Run<'_> {
    ghost tree = { λ run. run_shown run.task.now run.runner.now };

    fn show(&self, alloc: Global) -> Result<Out, NoMemory> {
        let task = self.task;
        let runner = self.runner;
        let mut object = Object::new(alloc);
        object.put("info", &ByName(runner.info.as_slice()))?;
        object.put("task_id", &task.id)?;
        object.put("worker", &runner.id)?;
        Ok(object.into_out())
    }
}

/// Runs, as the list of what is shown of each.
#[derive(Drop)]
pub(crate) struct Runs<'a>(pub(crate) &'a [Run<'a>]);

impl Shown for Runs<'_> {
    ghost use Rattle.lg_json.specs.Tree.{list, trees_of};

    ghost tree = { λ runs. list (trees_of (runs_in runs.0.now)) };

    fn show(&self, alloc: Global) -> Result<Out, NoMemory> {
        list_of(alloc, self.0)
    }
}

/// Of some tasks of a state those whose worker is known, with what is known of it. Refused only where there is no memory.
pub(crate) fn runs_among<'a, K: Look>(
    alloc: Global,
    state: &'a K,
    tasks: &[&'a TaskRec],
) -> Result<Vec<Run<'a>>, NoMemory>
    requires { CanBeLookedAt (K.state state.now) }
    ensures { IfOk result (λ runs. runs_in runs.items ≡ runs_of (K.state state.now) (lent tasks.now)) }
{
    let mut runs = Vec::new(alloc);
    for task in tasks {
        push_run(&mut runs, state, task)?;
    }
    Ok(runs)
}

fn push_run<'a, K: Look>(
    runs: &mut Vec<Run<'a>>,
    state: &'a K,
    task: &'a TaskRec,
) -> Result<(), NoMemory>
    requires { CanBeLookedAt (K.state state.now) }
    ensures { OnOk result (runs_in runs.new.items ≡ runs_in runs.old.items ++ runs_of (K.state state.now) (task.now ∷ [])) }
{
    match runner_of(state, task) {
        None => Ok(()),
        Some(runner) => Ok(runs.push(Run { task, runner })?),
    }
}

// The worker that runs a task, if it is known.
fn runner_of<'a, K: Look>(state: &'a K, task: &TaskRec) -> Option<&'a WorkerRec>
    requires { CanBeLookedAt (K.state state.now) }
    ensures { option_copied result ≡ runner_of (K.state state.now) task.now }
{
    match &task.worker_running {
        None => None,
        Some(id) => find_worker(state.workers(), id),
    }
}
