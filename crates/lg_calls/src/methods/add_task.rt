//! `add_task`.
ghost use Rattle.std.specs.Prelude.{◌≡◌, IfOk, IfSome, IsTrue, codes};
ghost use Rattle.lg_base.specs.Names.{AreInOrder};
ghost use Rattle.lg_calls.specs.Methods.AddTask.{add_task, add_task_in_range, declared, demands, described, put_together, reported, terms};
ghost use Rattle.lg_calls.specs.Reading.{field, Reads};
ghost use Rattle.lg_calls.specs.RetryEntries.{policy_in, is_policy};

use crate::arguments::{Arguments, taken};
use crate::ranges::known;
use crate::refusal::PayloadFault;
use crate::retry_entries::{NO_POLICY, policy_in};
use crate::retry_policy::RetryPolicy;
use crate::status::Reported;
use lg_base::{Amounts, Name, Seq, TaskId, Text, WorkerId};

/// A worker declares a task, or reports what became of one.
#[derive(Debug, Drop)]
pub struct AddTask {
    /// The worker that asks.
    pub worker: WorkerId,
    /// The task.
    pub task_id: TaskId,
    /// What the task is to become; pending where none is given.
    pub status: Reported,
    /// Whether the worker can run the task; true where none is given.
    pub runnable: bool,
    /// The dependencies that replace those of the task, in the order in which they were sent.
    pub deps: Option<Seq<TaskId>>,
    /// Dependencies that came up while the task ran, in the order in which they were sent.
    pub new_deps: Seq<TaskId>,
    /// Why the task failed.
    pub expl: Option<Text>,
    /// What the task takes of each resource while it runs.
    pub resources: Amounts,
    /// Tasks of a greater priority are given first; 0 where none is given.
    pub priority: i64,
    /// The family of the task; empty where none is given.
    pub family: Name,
    /// The module that has the family.
    pub module: Option<Text>,
    /// The parameters, in the order of their names' bytes, each name once.
    pub params: Seq<(Name, Text)>,
    /// Whether the task takes messages while it runs; false where none is given.
    pub accepts_messages: bool,
    /// Whether the worker helps others, and wants no task for itself; false where none is given.
    pub assistant: bool,
    /// Where the task's work can be looked at.
    pub tracking_url: Option<Text>,
    /// Whether the task may be run in a batch.
    pub batchable: Option<bool>,
    /// The batch that the report is of.
    pub batch_id: Option<Text>,
    /// What this call says of the retry policy.
    pub retry_policy: RetryPolicy,
}

// The arguments are read in four parts, in the order of their names here.

#[derive(Drop)]
struct Declared {
    worker: WorkerId,
    task_id: TaskId,
    status: Reported,
    runnable: bool,
}

#[derive(Drop)]
struct Demands {
    deps: Option<Seq<TaskId>>,
    new_deps: Seq<TaskId>,
    expl: Option<Text>,
    resources: Amounts,
    priority: i64,
}

#[derive(Drop)]
struct Described {
    family: Name,
    module: Option<Text>,
    params: Seq<(Name, Text)>,
    accepts_messages: bool,
}

#[derive(Drop)]
struct Terms {
    assistant: bool,
    tracking_url: Option<Text>,
    batchable: Option<bool>,
    batch_id: Option<Text>,
    retry_policy: RetryPolicy,
}

impl AddTask {
    /// Reads the arguments in the order of the fields above. `worker` and `task_id` have to be there; `status` is a word of
    /// `Reported`; `retry_policy_dict` is an object with the entries of `RetryPolicy`, each of which may be null.
    pub(crate) fn read(arguments: &mut Arguments) -> Result<AddTask, PayloadFault>
        ensures read { Reads add_task arguments.old arguments.new result }
        ensures in_range { IfOk result (λ ask. IsTrue (add_task_in_range ask)) }
    {
        let declared = read_declared(arguments)?;
        let demands = read_demands(arguments)?;
        let described = read_described(arguments)?;
        let terms = read_terms(arguments)?;
        Ok(put_together(declared, demands, described, terms))
    }
}

fn put_together(declared: Declared, demands: Demands, described: Described, terms: Terms) -> AddTask
    ensures { result ≡ put_together declared demands described terms }
{
    AddTask {
        worker: declared.worker,
        task_id: declared.task_id,
        status: declared.status,
        runnable: declared.runnable,
        deps: demands.deps,
        new_deps: demands.new_deps,
        expl: demands.expl,
        resources: demands.resources,
        priority: demands.priority,
        family: described.family,
        module: described.module,
        params: described.params,
        accepts_messages: described.accepts_messages,
        assistant: terms.assistant,
        tracking_url: terms.tracking_url,
        batchable: terms.batchable,
        batch_id: terms.batch_id,
        retry_policy: terms.retry_policy,
    }
}

fn read_declared(arguments: &mut Arguments) -> Result<Declared, PayloadFault>
    ensures { Reads declared arguments.old arguments.new result }
{
    let worker = arguments.needed_text("worker")?;
    let task_id = arguments.needed_text("task_id")?;
    let word = arguments.text("status")?;
    let status = known("status", reported(word))?;
    let runnable = arguments.truth("runnable")?;
    Ok(Declared {
        worker: WorkerId::from(worker),
        task_id: TaskId::from(task_id),
        status,
        runnable: runnable.unwrap_or(true),
    })
}

fn reported(word: Option<Text>) -> Option<Reported>
    ensures { result ≡ reported word }
{
    match word {
        None => Some(Reported::Pending),
        Some(word) => Reported::named(word.as_str()),
    }
}

fn read_demands(arguments: &mut Arguments) -> Result<Demands, PayloadFault>
    ensures { Reads demands arguments.old arguments.new result }
{
    let deps = arguments.ids("deps")?;
    let new_deps = arguments.ids("new_deps")?;
    let expl = arguments.text("expl")?;
    let resources = arguments.amounts("resources")?;
    let priority = arguments.int("priority")?;
    Ok(Demands {
        deps,
        new_deps: new_deps.unwrap_or(Seq::new(arguments.alloc())),
        expl,
        resources: resources.unwrap_or(Amounts::new(arguments.alloc())),
        priority: priority.unwrap_or(0),
    })
}

fn read_described(arguments: &mut Arguments) -> Result<Described, PayloadFault>
    ensures read { Reads described arguments.old arguments.new result }
    ensures order { IfOk result (λ read. AreInOrder read.params) }
{
    let family = arguments.text("family")?;
    let module = arguments.text("module")?;
    let params = arguments.pairs("params")?;
    let accepts_messages = arguments.truth("accepts_messages")?;
    Ok(Described {
        family: Name::from(family.unwrap_or(Text::from_string(String::new(arguments.alloc())))),
        module,
        params: params.unwrap_or(Seq::new(arguments.alloc())),
        accepts_messages: accepts_messages.unwrap_or(false),
    })
}

fn read_terms(arguments: &mut Arguments) -> Result<Terms, PayloadFault>
    ensures read { Reads terms arguments.old arguments.new result }
    ensures in_range { IfOk result (λ read. IsTrue (is_policy read.retry_policy)) }
{
    let assistant = arguments.truth("assistant")?;
    let tracking_url = arguments.text("tracking_url")?;
    let batchable = arguments.truth("batchable")?;
    let batch_id = arguments.text("batch_id")?;
    let policy = read_policy(arguments)?;
    Ok(Terms {
        assistant: assistant.unwrap_or(false),
        tracking_url,
        batchable,
        batch_id,
        retry_policy: policy.unwrap_or(NO_POLICY),
    })
}

fn read_policy(arguments: &mut Arguments) -> Result<Option<RetryPolicy>, PayloadFault>
    ensures read { Reads (field policy_in (codes "retry_policy_dict")) arguments.old arguments.new result }
    ensures in_range { IfOk result (λ read. IfSome read (λ policy. IsTrue (is_policy policy))) }
{
    let value = arguments.value("retry_policy_dict");
    taken("retry_policy_dict", policy_in(value))
}
