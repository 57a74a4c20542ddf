//! The changes that `add_task` makes along the tasks.
ghost use Rattle.std.specs.Prelude.{◌≡◌, OnOk};

use super::describing::{fill, replace, tell};
use super::offering::{offer, raise};
use super::reporting::{begin, depend};
use super::walk::TaskChange;
use super::wanting::{has_id_of, want};
use crate::change::is_batch;
use crate::rules::is_status;
use lg_base::{Amounts, Moment, NoMemory, TaskId, Text, WorkerId};
use lg_calls::{AddTask, Status, TaskRec};
use lg_retry::Policy;
use std::alloc::Global;

/// What is changed of the task of a call.
#[derive(Drop)]
pub(crate) enum Part {
    /// What is empty or absent is filled.
    Fill,
    /// The fields that a call replaces.
    Replace,
    /// A task that is RUNNING begins to run at a moment.
    Begin(Moment),
    Depend,
    Resources(Amounts),
    Raise,
    Policy(Policy),
    /// The worker of the call can run it.
    Offer,
}

/// A change of the task of a call.
#[derive(Drop)]
pub(crate) struct OfTask<'a> {
    pub ask: &'a AddTask,
    pub part: Part,
}

impl TaskChange for OfTask<'_> {
    ghost use Rattle.lg_calls.specs.Tasks.{has_id};
    ghost use Rattle.lg_plain.specs.Parts.{part_changed};

    ghost is_meant = { λ change. has_id change.ask.now.task_id };

    ghost changed = { λ change. part_changed change.ask.now change.part };

    fn has(&self, task: &TaskRec) -> bool {
        task.has_id(&self.ask.task_id)
    }

    fn change(&self, task: &mut TaskRec, alloc: Global) -> Result<(), NoMemory> {
        self.part.change(task, alloc, self.ask)
    }
}

impl Part {
    ghost use Rattle.lg_plain.specs.Parts.{part_changed};

    // Changes this part of a task.
    fn change(&self, task: &mut TaskRec, alloc: Global, ask: &AddTask) -> Result<(), NoMemory>
        ensures { OnOk result (task.new ≡ part_changed ask.now self.now task.old) }
    {
        match self {
            Part::Fill => fill(task, ask),
            Part::Replace => replace(task, ask),
            Part::Begin(now) => begin(task, ask, *now),
            Part::Depend => depend(task, alloc, ask),
            Part::Resources(resources) => set_resources(task, resources),
            Part::Raise => {
                raise(task, ask);
                Ok(())
            }
            Part::Policy(policy) => {
                task.policy = *policy;
                Ok(())
            }
            Part::Offer => offer(task, &ask.worker),
        }
    }
}

fn set_resources(task: &mut TaskRec, resources: &Amounts) -> Result<(), NoMemory>
    ensures { OnOk result (task.new ≡ record task.old { resources = resources.now }) }
{
    task.resources = resources.clone()?;
    Ok(())
}

/// What is told of a task's work goes to those that run in a batch.
#[derive(Drop)]
pub(crate) struct Telling<'a> {
    pub ask: &'a AddTask,
    pub batch: Option<Text>,
    /// Whether the tracking URL is replaced.
    pub replaces: bool,
}

impl TaskChange for Telling<'_> {
    ghost use Rattle.lg_calls.specs.Status.{runs_in};
    ghost use Rattle.lg_calls.specs.AddTask.Describing.{told};

    ghost is_meant = { λ telling. runs_in telling.batch };

    ghost changed = { λ telling. told telling.ask.now telling.replaces };

    fn has(&self, task: &TaskRec) -> bool {
        is_batch(&self.batch, &task.batch) && is_status(Status::BatchRunning, task.status)
    }

    fn change(&self, task: &mut TaskRec, _alloc: Global) -> Result<(), NoMemory> {
        tell(task, self.ask, self.replaces)
    }
}

/// A worker becomes a stakeholder of the tasks of these ids.
#[derive(Drop)]
pub(crate) struct Staking<'a> {
    pub worker: &'a WorkerId,
    pub ids: Vec<TaskId>,
}

impl TaskChange for Staking<'_> {
    ghost use Rattle.lg_calls.specs.AddTask.Wanting.{has_id_of, wanted_by};

    ghost is_meant = { λ staking. has_id_of staking.ids.items };

    ghost changed = { λ staking. wanted_by staking.worker.now };

    fn has(&self, task: &TaskRec) -> bool {
        has_id_of(self.ids.as_slice(), task)
    }

    fn change(&self, task: &mut TaskRec, alloc: Global) -> Result<(), NoMemory> {
        want(task, alloc, self.worker)
    }
}
