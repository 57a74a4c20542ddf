ghost use Rattle.std.specs.Prelude.{◌≡◌, IfOk};
ghost use Rattle.lg_calls.specs.Tasks.{has_id};

use crate::status::Status;
use lg_base::{Amounts, Moment, Name, NoMemory, Seq, TaskId, Text, WorkerId};
use lg_retry::{Failures, Policy};
use std::alloc::AllocError;
use std::marker::Model;

/// What the scheduler knows of a task. Contracts see it as a record in which the failures are their history, so that the
/// room for more doesn't count.
#[derive(Debug, Drop)]
pub struct TaskRec {
    pub id: TaskId,
    /// The place in the order of making: no other task has the number, and later ones have greater numbers.
    pub number: u64,
    pub family: Name,
    pub module: Option<Text>,
    /// The parameters, in the order of their names' bytes, each name once.
    pub params: Seq<(Name, Text)>,
    pub status: Status,
    /// The tasks that have to be done before, in the order of their bytes, each once.
    pub deps: Seq<TaskId>,
    /// The workers that can run the task, in the order in which they said so, each once.
    pub workers: Seq<WorkerId>,
    /// The workers that want the task done, in the order of their bytes, each once.
    pub stakeholders: Seq<WorkerId>,
    pub priority: i64,
    /// What the task takes of each resource while it runs.
    pub resources: Amounts,
    /// When the task was made.
    pub added: Moment,
    /// When its status last changed.
    pub updated: Moment,
    /// Whether a worker can run it.
    pub runnable: bool,
    /// Whether it may be run in a batch.
    pub batchable: bool,
    /// Whether it takes messages while it runs.
    pub accepts_messages: bool,
    /// The worker that runs it.
    pub worker_running: Option<WorkerId>,
    /// Since when it runs.
    pub time_running: Option<Moment>,
    /// The batch in which it runs.
    pub batch: Option<Text>,
    pub failures: Failures,
    pub policy: Policy,
    /// When it is tried again.
    pub retry: Option<Moment>,
    /// When the scheduler disabled it.
    pub disabled_at: Option<Moment>,
    /// When it is removed.
    pub remove: Option<Moment>,
    /// Why it failed.
    pub expl: Option<Text>,
    /// Where its work can be looked at.
    pub tracking_url: Option<Text>,
    /// What it says of itself.
    pub status_message: Option<Text>,
    /// How far it has come, as it says itself.
    pub progress: Option<i64>,
}

impl Model for TaskRec {
    ghost use Rattle.std.specs.Coded.{codes};
    ghost use Rattle.lg_base.specs.Amounts.{amounts_code};
    ghost use Rattle.lg_calls.specs.Task.{Task};

    ghost Value = { Task };

    ghost coded = { Prim.hlevel (codes, amounts_code) };

    ghost use Rattle.lg_calls.specs.TaskView.{task_of};

    ghost view = { task_of };
}

impl TaskRec {
    /// A record equal to this one. Refused only where there is no memory.
    pub fn copy(&self) -> Result<TaskRec, NoMemory>
        ensures { IfOk result (λ copy. copy ≡ self.now) }
    {
        Ok(self.clone()?)
    }

    /// Whether this is the task of an id.
    pub fn has_id(&self, id: &TaskId) -> bool
        ensures { result ≡ has_id id.now self.now }
    {
        id.cmp(&self.id).is_eq()
    }

    // What names the task: its id, family, module and parameters.
    fn names(&self) -> Result<(TaskId, Name, Option<Text>, Seq<(Name, Text)>), AllocError>
        ensures id { IfOk result (λ names. names.0 ≡ self.now.id) }
        ensures family { IfOk result (λ names. names.1 ≡ self.now.family) }
        ensures of_module { IfOk result (λ names. names.2 ≡ self.now.«module») }
        ensures params { IfOk result (λ names. names.3 ≡ self.now.params) }
    {
        let id = self.id.clone()?;
        let family = self.family.clone()?;
        let module = self.module.clone()?;
        let params = self.params.clone()?;
        Ok((id, family, module, params))
    }

    // What the task needs and who wants it: its dependencies, workers, stakeholders and resources.
    fn needs(&self) -> Result<(Seq<TaskId>, Seq<WorkerId>, Seq<WorkerId>, Amounts), AllocError>
        ensures deps { IfOk result (λ needs. needs.0 ≡ self.now.deps) }
        ensures workers { IfOk result (λ needs. needs.1 ≡ self.now.workers) }
        ensures stakeholders { IfOk result (λ needs. needs.2 ≡ self.now.stakeholders) }
        ensures resources { IfOk result (λ needs. needs.3 ≡ self.now.resources) }
    {
        let deps = self.deps.clone()?;
        let workers = self.workers.clone()?;
        let stakeholders = self.stakeholders.clone()?;
        let resources = self.resources.clone()?;
        Ok((deps, workers, stakeholders, resources))
    }

    // How the task runs and ran: the worker that runs it, its batch and its failures.
    fn runs(&self) -> Result<(Option<WorkerId>, Option<Text>, Failures), AllocError>
        ensures worker { IfOk result (λ runs. runs.0 ≡ self.now.worker_running) }
        ensures batch { IfOk result (λ runs. runs.1 ≡ self.now.batch) }
        ensures failures { IfOk result (λ runs. runs.2.history ≡ self.now.failures) }
    {
        let worker_running = self.worker_running.clone()?;
        let batch = self.batch.clone()?;
        let failures = self.failures.clone()?;
        Ok((worker_running, batch, failures))
    }

    // What is told of the task: why it failed, where its work can be looked at, and what it says of itself.
    fn texts(&self) -> Result<(Option<Text>, Option<Text>, Option<Text>), AllocError>
        ensures expl { IfOk result (λ texts. texts.0 ≡ self.now.expl) }
        ensures tracking_url { IfOk result (λ texts. texts.1 ≡ self.now.tracking_url) }
        ensures status_message { IfOk result (λ texts. texts.2 ≡ self.now.status_message) }
    {
        let expl = self.expl.clone()?;
        let tracking_url = self.tracking_url.clone()?;
        let status_message = self.status_message.clone()?;
        Ok((expl, tracking_url, status_message))
    }
}

impl Clone for TaskRec {
    ghost is_clone = { λ old new. new ≡ old };

    fn clone(&self) -> Result<TaskRec, AllocError> {
        let (id, family, module, params) = self.names()?;
        let (deps, workers, stakeholders, resources) = self.needs()?;
        let (worker_running, batch, failures) = self.runs()?;
        let (expl, tracking_url, status_message) = self.texts()?;
        Ok(TaskRec {
            id,
            number: self.number,
            family,
            module,
            params,
            status: self.status,
            deps,
            workers,
            stakeholders,
            priority: self.priority,
            resources,
            added: self.added,
            updated: self.updated,
            runnable: self.runnable,
            batchable: self.batchable,
            accepts_messages: self.accepts_messages,
            worker_running,
            time_running: self.time_running,
            batch,
            failures,
            policy: self.policy,
            retry: self.retry,
            disabled_at: self.disabled_at,
            remove: self.remove,
            expl,
            tracking_url,
            status_message,
            progress: self.progress,
        })
    }
}
