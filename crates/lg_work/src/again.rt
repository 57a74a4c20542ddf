//! A task is given again to the worker that runs it, where the reply that gave it was lost.
ghost use Rattle.std.specs.Prelude.{◌≡◌, IfOk, slice_get};
ghost use Rattle.std.specs.List.{list_any};
ghost use Rattle.std.specs.Option.{option_copied};
ghost use Rattle.lg_calls.specs.AddTask.Reporting.{runs_for};
ghost use Rattle.lg_calls.specs.Tasks.{has_id};
ghost use Rattle.lg_calls.specs.Valid.{IsValidState};
ghost use Rattle.lg_calls.specs.Work.Again.{first_lost, given_again};
ghost use Rattle.lg_views.specs.Lent.{lent};

use crate::rank::by_rank;
use lg_base::{NoMemory, TaskId, WorkerId};
use lg_calls::{GetWork, State, Status, TaskRec, laws};
use lg_views::picking::{Wanted, picked};
use lg_views::statuses::is_status;
use std::alloc::Global;

/// Being lost: a worker runs the task, and doesn't know.
#[derive(Drop)]
struct Lost<'a> {
    worker: &'a WorkerId,
    /// The tasks that the worker knows that it runs.
    known: &'a [TaskId],
}

impl Wanted for Lost<'_> {
    ghost use Rattle.lg_calls.specs.Work.Again.{was_lost};

    ghost wants = { λ lost. was_lost lost.worker.now lost.known.now };

    fn is_met_by(&self, task: &TaskRec) -> bool {
        is_status(Status::Running, task.status)
            && (runs_for(self.worker, task) && !is_known(self.known, task))
    }
}

// Whether this worker runs the task.
fn runs_for(worker: &WorkerId, task: &TaskRec) -> bool
    ensures { result ≡ runs_for worker.now task.now }
{
    match &task.worker_running {
        Some(running) => worker.cmp(running).is_eq(),
        None => false,
    }
}

fn is_known(known: &[TaskId], task: &TaskRec) -> bool
    ensures { result ≡ list_any (λ id. has_id id task.now) known.now }
{
    known.iter().any(|id| task.has_id(id))
}

/// The task that is given again: the first in rank of those that the worker lost, and none where it doesn't tell what it runs.
/// Refused only where there is no memory.
pub fn given_again<'a>(
    alloc: Global,
    ask: &GetWork,
    state: &'a State,
) -> Result<Option<&'a TaskRec>, NoMemory>
    requires { IsValidState state.now }
    ensures { IfOk result (λ task. option_copied task ≡ given_again ask.now state.now) }
{
    match &ask.current_tasks {
        Some(known) => first_lost(alloc, &ask.worker, state, known.as_slice()),
        None => Ok(None),
    }
}

// The first in rank of the tasks that a worker lost.
fn first_lost<'a>(
    alloc: Global,
    worker: &WorkerId,
    state: &'a State,
    known: &[TaskId],
) -> Result<Option<&'a TaskRec>, NoMemory>
    requires { IsValidState state.now }
    ensures { IfOk result (λ task. option_copied task ≡ first_lost worker.now state.now.tasks known.now) }
{
    laws::numbers_keep_rising();
    laws::who_walks_by_rank();
    let lost = picked(alloc, state, &Lost { worker, known })?;
    let ranked = by_rank(lost)?;
    Ok(first_of(ranked.as_slice()))
}

// The first of some tasks, if there are any.
#[tactic(auto, using(crate::proofs::RankLemmas::first_lent))]
fn first_of<'a>(tasks: &[&'a TaskRec]) -> Option<&'a TaskRec>
    ensures { option_copied result ≡ slice_get (lent tasks.now) 0 }
{
    match tasks {
        [task, ..] => Some(*task),
        [] => None,
    }
}
