//! The smaller records.
ghost use Rattle.lg_snapshot.specs.Fitting.{WorkerFits};
ghost use Rattle.lg_snapshot.specs.Records as spec;

use crate::leaves::ByName;
use crate::writing::{Output, Written};
use lg_base::NoMemory;
use lg_calls::{BatcherRec, WorkerRec};
use lg_retry::{Failures, Policy};

impl Written for Policy {
    ghost tree = { spec.tree_of_policy };

    fn write(&self, output: &mut Output) -> Result<(), NoMemory> {
        output.first("disable_hard_timeout", &self.disable_hard_timeout)?;
        output.next("disable_window", &self.disable_window)?;
        output.next("retry_count", &self.retry_count)?;
        output.end()
    }
}

impl Written for Failures {
    ghost tree = { λ failures. spec.tree_of_failures failures.history };

    fn write(&self, output: &mut Output) -> Result<(), NoMemory> {
        output.first("first", &self.first())?;
        output.next("moments", &self.moments())?;
        output.end()
    }
}

impl Written for WorkerRec {
    ghost tree = { spec.tree_of_worker };

    ghost fits = { WorkerFits };

    fn write(&self, output: &mut Output) -> Result<(), NoMemory> {
        output.first("disabled", &self.disabled)?;
        output.next("id", &self.id)?;
        output.next("info", &ByName(self.info.as_slice()))?;
        output.next("last_active", &self.last_active)?;
        output.next("last_get_work", &self.last_get_work)?;
        output.next("started", &self.started)?;
        output.end()
    }
}

impl Written for BatcherRec {
    ghost tree = { spec.tree_of_batcher };

    fn write(&self, output: &mut Output) -> Result<(), NoMemory> {
        output.first("family", &self.family)?;
        output.next("names", &self.names)?;
        output.next("size", &self.size)?;
        output.next("worker", &self.worker)?;
        output.end()
    }
}
