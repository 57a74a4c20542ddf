//! The smaller records, read from JSON.
ghost use Rattle.lg_snapshot.specs.Reading.{Reads, record_in};
ghost use Rattle.lg_snapshot.specs.RecordReadings as spec;

use crate::entries::{Entries, Spelled, Unread};
use lg_base::{Moment, Seq};
use lg_calls::{BatcherRec, WorkerRec};
use lg_retry::Policy;
use serde_json::Value;
use std::alloc::Global;

impl Spelled for Policy {
    ghost kind = { record_in spec.policy };

    fn read(alloc: Global, value: Value) -> Result<Policy, Unread> {
        let mut entries = Entries::of(alloc, value)?;
        read_policy(&mut entries)
    }
}

fn read_policy(entries: &mut Entries) -> Result<Policy, Unread>
    ensures { Reads spec.policy entries.old entries.new result }
{
    let disable_hard_timeout = entries.next("disable_hard_timeout")?;
    let disable_window = entries.next("disable_window")?;
    let retry_count = entries.next("retry_count")?;
    Ok(Policy {
        retry_count,
        disable_window,
        disable_hard_timeout,
    })
}

/// What is remembered of a task's failures: the first, and the moments that may still count.
#[derive(Drop)]
pub(crate) struct FailureParts {
    pub(crate) first: Option<Moment>,
    pub(crate) moments: Seq<Moment>,
}

impl Spelled for FailureParts {
    ghost kind = { record_in spec.failures };

    fn read(alloc: Global, value: Value) -> Result<FailureParts, Unread> {
        let mut entries = Entries::of(alloc, value)?;
        read_failures(&mut entries)
    }
}

fn read_failures(entries: &mut Entries) -> Result<FailureParts, Unread>
    ensures { Reads spec.failures entries.old entries.new result }
{
    let first = entries.next("first")?;
    let moments = entries.next("moments")?;
    Ok(FailureParts { first, moments })
}

impl Spelled for BatcherRec {
    ghost kind = { record_in spec.batcher };

    fn read(alloc: Global, value: Value) -> Result<BatcherRec, Unread> {
        let mut entries = Entries::of(alloc, value)?;
        read_batcher(&mut entries)
    }
}

fn read_batcher(entries: &mut Entries) -> Result<BatcherRec, Unread>
    ensures { Reads spec.batcher entries.old entries.new result }
{
    let family = entries.next("family")?;
    let names = entries.next("names")?;
    let size = entries.next("size")?;
    let worker = entries.next("worker")?;
    Ok(BatcherRec {
        worker,
        family,
        names,
        size,
    })
}

impl Spelled for WorkerRec {
    ghost kind = { record_in spec.worker };

    fn read(alloc: Global, value: Value) -> Result<WorkerRec, Unread> {
        let mut entries = Entries::of(alloc, value)?;
        read_worker(&mut entries)
    }
}

fn read_worker(entries: &mut Entries) -> Result<WorkerRec, Unread>
    ensures { Reads spec.worker entries.old entries.new result }
{
    let disabled = entries.next("disabled")?;
    let id = entries.next("id")?;
    let info = entries.pairs("info")?;
    let last_active = entries.next("last_active")?;
    let last_get_work = entries.next("last_get_work")?;
    let started = entries.next("started")?;
    Ok(WorkerRec {
        id,
        started,
        last_active,
        last_get_work,
        info,
        disabled,
    })
}
