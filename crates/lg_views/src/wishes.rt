//! The tests of tasks that views pick by.
ghost use Rattle.std.specs.FinMap.{contains_key};
ghost use Rattle.std.specs.List.{list_any};
ghost use Rattle.std.specs.Prelude.{◌≡◌};
ghost use Rattle.lg_calls.specs.Order.{is_same};
ghost use Rattle.lg_calls.specs.Status.{is_status};
ghost use Rattle.lg_calls.specs.Views.PendingCounts.{is_left, names_one, is_last_of};
ghost use Rattle.lg_calls.specs.Views.TaskSearch.{has_part};
ghost use Rattle.lg_calls.specs.Use.{takes};
ghost use Rattle.lg_calls.specs.Work.Walk.{names};

use crate::picking::Wanted;
use crate::statuses::is_status;
use lg_base::{Amounts, Name, Text, WorkerId};
use lg_calls::{Status, TaskRec};

/// The tasks of a status.
#[derive(Clone, Copy)]
pub(crate) struct Having(pub(crate) Status);

impl Wanted for Having {
    ghost wants = { λ having task. is_status having.0 task.status };

    fn is_met_by(&self, task: &TaskRec) -> bool {
        is_status(self.0, task.status)
    }
}

/// The tasks whose resources name a resource.
#[derive(Drop)]
pub(crate) struct Taking<'a>(pub(crate) &'a Name);

impl Wanted for Taking<'_> {
    ghost wants = { λ taking. takes taking.0.now };

    fn is_met_by(&self, task: &TaskRec) -> bool {
        has_name(&task.resources, self.0)
    }
}

// Whether amounts name a resource. An absent one has 0 as its amount and 1 as its limit; one that is there has the same.
fn has_name(amounts: &Amounts, name: &Name) -> bool
    ensures { result ≡ contains_key amounts.now name.now }
{
    amounts.get(name) == amounts.limit_of(name)
}

/// The tasks whose id has a text in it.
#[derive(Drop)]
pub(crate) struct HoldingPart<'a>(pub(crate) &'a Text);

impl Wanted for HoldingPart<'_> {
    ghost wants = { λ holding task. has_part holding.0.now task.id };

    fn is_met_by(&self, task: &TaskRec) -> bool {
        has_part(task.id.as_str(), self.0.as_str())
    }
}

// Whether a text has a part in it.
fn has_part(text: &str, part: &str) -> bool
    ensures { result ≡ has_part part.now text.now }
{
    text.contains(part)
}

/// The tasks that name a worker, as one of those that can run them.
#[derive(Drop)]
pub(crate) struct Naming<'a>(pub(crate) &'a WorkerId);

impl Wanted for Naming<'_> {
    ghost wants = { λ naming. names naming.0.now };

    fn is_met_by(&self, task: &TaskRec) -> bool {
        is_among(self.0, task.workers.as_slice())
    }
}

// Whether a worker is one of these.
fn is_among(worker: &WorkerId, workers: &[WorkerId]) -> bool
    ensures { result ≡ list_any (is_same worker.now) workers.now }
{
    workers.iter().any(|other| worker.cmp(other).is_eq())
}

/// The tasks that name one worker alone.
#[derive(Clone, Copy)]
pub(crate) struct NamingOne;

impl Wanted for NamingOne {
    ghost wants = { λ naming. names_one };

    fn is_met_by(&self, task: &TaskRec) -> bool {
        task.workers.len() == 1
    }
}

/// The tasks that name a worker last.
#[derive(Drop)]
pub(crate) struct EndingIn<'a>(pub(crate) &'a WorkerId);

impl Wanted for EndingIn<'_> {
    ghost wants = { λ ending. is_last_of ending.0.now };

    fn is_met_by(&self, task: &TaskRec) -> bool {
        match task.workers.as_slice().last() {
            Some(last) => self.0.cmp(last).is_eq(),
            None => false,
        }
    }
}

/// The tasks that are left to do.
#[derive(Clone, Copy)]
pub(crate) struct Left;

impl Wanted for Left {
    ghost wants = { λ left. is_left };

    fn is_met_by(&self, task: &TaskRec) -> bool {
        is_status(Status::Pending, task.status) || is_status(Status::Failed, task.status)
    }
}
