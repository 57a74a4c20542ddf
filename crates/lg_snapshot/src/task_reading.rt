//! A task, read from JSON. Its fields are read in six parts, in the order of their names.
ghost use Rattle.std.specs.Prelude.{◌≡◌};
ghost use Rattle.lg_snapshot.specs.Reading.{Reads, record_in};
ghost use Rattle.lg_snapshot.specs.TaskReading as spec;

use crate::entries::{Entries, Spelled, Unread};
use crate::record_reading::FailureParts;
use lg_base::{Amounts, Moment, Name, Seq, TaskId, Text, WorkerId};
use lg_calls::{Status, TaskRec};
use lg_retry::{Failures, Policy};
use serde_json::Value;
use std::alloc::Global;

#[derive(Drop)]
struct First {
    accepts_messages: bool,
    added: Moment,
    batch: Option<Text>,
    batchable: bool,
    deps: Seq<TaskId>,
}

#[derive(Drop)]
struct Second {
    disabled_at: Option<Moment>,
    expl: Option<Text>,
    failures: FailureParts,
    family: Name,
    id: TaskId,
}

#[derive(Drop)]
struct Third {
    module: Option<Text>,
    number: u64,
    params: Seq<(Name, Text)>,
    policy: Policy,
    priority: i64,
}

#[derive(Drop)]
struct Fourth {
    progress: Option<i64>,
    remove: Option<Moment>,
    resources: Amounts,
    retry: Option<Moment>,
    runnable: bool,
}

#[derive(Drop)]
struct Fifth {
    stakeholders: Seq<WorkerId>,
    status: Status,
    status_message: Option<Text>,
    time_running: Option<Moment>,
}

#[derive(Drop)]
struct Sixth {
    tracking_url: Option<Text>,
    updated: Moment,
    worker_running: Option<WorkerId>,
    workers: Seq<WorkerId>,
}

#[derive(Drop)]
struct Parts {
    first: First,
    second: Second,
    third: Third,
    fourth: Fourth,
    fifth: Fifth,
    sixth: Sixth,
}

impl Spelled for TaskRec {
    ghost kind = { record_in spec.task };

    fn read(alloc: Global, value: Value) -> Result<TaskRec, Unread> {
        let mut entries = Entries::of(alloc, value)?;
        read_task(&mut entries)
    }
}

fn read_task(entries: &mut Entries) -> Result<TaskRec, Unread>
    ensures { Reads spec.task entries.old entries.new result }
{
    let first = read_first(entries)?;
    let second = read_second(entries)?;
    let third = read_third(entries)?;
    let fourth = read_fourth(entries)?;
    let fifth = read_fifth(entries)?;
    let sixth = read_sixth(entries)?;
    Ok(put_together(Parts {
        first,
        second,
        third,
        fourth,
        fifth,
        sixth,
    }))
}

fn put_together(parts: Parts) -> TaskRec
    ensures { result ≡ spec.put_together parts }
{
    let Parts {
        first,
        second,
        third,
        fourth,
        fifth,
        sixth,
    } = parts;
    TaskRec {
        id: second.id,
        number: third.number,
        family: second.family,
        module: third.module,
        params: third.params,
        status: fifth.status,
        deps: first.deps,
        workers: sixth.workers,
        stakeholders: fifth.stakeholders,
        priority: third.priority,
        resources: fourth.resources,
        added: first.added,
        updated: sixth.updated,
        runnable: fourth.runnable,
        batchable: first.batchable,
        accepts_messages: first.accepts_messages,
        worker_running: sixth.worker_running,
        time_running: fifth.time_running,
        batch: first.batch,
        failures: Failures::from_parts(second.failures.first, second.failures.moments.into_vec()),
        policy: third.policy,
        retry: fourth.retry,
        disabled_at: second.disabled_at,
        remove: fourth.remove,
        expl: second.expl,
        tracking_url: sixth.tracking_url,
        status_message: fifth.status_message,
        progress: fourth.progress,
    }
}

fn read_first(entries: &mut Entries) -> Result<First, Unread>
    ensures { Reads spec.first entries.old entries.new result }
{
    let accepts_messages = entries.next("accepts_messages")?;
    let added = entries.next("added")?;
    let batch = entries.next("batch")?;
    let batchable = entries.next("batchable")?;
    let deps = entries.next("deps")?;
    Ok(First {
        accepts_messages,
        added,
        batch,
        batchable,
        deps,
    })
}

fn read_second(entries: &mut Entries) -> Result<Second, Unread>
    ensures { Reads spec.second entries.old entries.new result }
{
    let disabled_at = entries.next("disabled_at")?;
    let expl = entries.next("expl")?;
    let failures = entries.next("failures")?;
    let family = entries.next("family")?;
    let id = entries.next("id")?;
    Ok(Second {
        disabled_at,
        expl,
        failures,
        family,
        id,
    })
}

fn read_third(entries: &mut Entries) -> Result<Third, Unread>
    ensures { Reads spec.third entries.old entries.new result }
{
    let module = entries.next("module")?;
    let number = entries.next("number")?;
    let params = entries.pairs("params")?;
    let policy = entries.next("policy")?;
    let priority = entries.next("priority")?;
    Ok(Third {
        module,
        number,
        params,
        policy,
        priority,
    })
}

fn read_fourth(entries: &mut Entries) -> Result<Fourth, Unread>
    ensures { Reads spec.fourth entries.old entries.new result }
{
    let progress = entries.next("progress")?;
    let remove = entries.next("remove")?;
    let resources = entries.next("resources")?;
    let retry = entries.next("retry")?;
    let runnable = entries.next("runnable")?;
    Ok(Fourth {
        progress,
        remove,
        resources,
        retry,
        runnable,
    })
}

fn read_fifth(entries: &mut Entries) -> Result<Fifth, Unread>
    ensures { Reads spec.fifth entries.old entries.new result }
{
    let stakeholders = entries.next("stakeholders")?;
    let status = entries.next("status")?;
    let status_message = entries.next("status_message")?;
    let time_running = entries.next("time_running")?;
    Ok(Fifth {
        stakeholders,
        status,
        status_message,
        time_running,
    })
}

fn read_sixth(entries: &mut Entries) -> Result<Sixth, Unread>
    ensures { Reads spec.sixth entries.old entries.new result }
{
    let tracking_url = entries.next("tracking_url")?;
    let updated = entries.next("updated")?;
    let worker_running = entries.next("worker_running")?;
    let workers = entries.next("workers")?;
    Ok(Sixth {
        tracking_url,
        updated,
        worker_running,
        workers,
    })
}
