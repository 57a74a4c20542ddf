//! Which tasks a worker's search goes over, and in which order.
ghost use Rattle.std.specs.Prelude.{◌≡◌, false, find, IfOk};
ghost use Rattle.std.specs.List.{list_all};
ghost use Rattle.std.specs.Option.{option_copied, option_map_or};
ghost use Rattle.lg_calls.specs.Order.{is_same};
ghost use Rattle.lg_calls.specs.Valid.{IsValidState};
ghost use Rattle.lg_calls.specs.Work.Walk.{info_of, is_true, is_assistant, names, has_no_resources, pending_of, is_trivial, walk};
ghost use Rattle.lg_calls.specs.Workers.{find_worker};
ghost use Rattle.lg_views.specs.Lent.{lent};

use crate::rank::by_rank;
use lg_base::{Name, NoMemory, WorkerId};
use lg_calls::{Info, State, Status, TaskRec, WorkerRec, laws};
use lg_views::picking::{Wanted, picked};
use lg_views::statuses::is_status;
use std::alloc::Global;

/// What a worker told of itself under a name.
pub(crate) fn info_of<'a>(worker: &'a WorkerRec, name: &str) -> Option<&'a Info>
    ensures { option_copied result ≡ info_of name.now worker.now }
{
    match pair_of(worker.info.as_slice(), name) {
        Some(pair) => Some(&pair.1),
        None => None,
    }
}

fn pair_of<'a>(pairs: &'a [(Name, Info)], name: &str) -> Option<&'a (Name, Info)>
    ensures { option_copied result ≡ find (λ pair. is_same name.now pair.0) pairs.now }
{
    pairs.iter().find(|pair| name.cmp(pair.0.as_str()).is_eq())
}

fn is_true(info: &Info) -> bool
    ensures { result ≡ is_true info.now }
{
    match info {
        Info::Truth(truth) => *truth,
        _ => false,
    }
}

// Whether a worker told that it is an assistant.
fn is_assistant(worker: &WorkerRec) -> bool
    ensures { result ≡ is_assistant worker.now }
{
    match info_of(worker, "assistant") {
        Some(info) => is_true(info),
        None => false,
    }
}

// Whether the worker of an id is an assistant. One that isn't known is none.
fn is_known_assistant(workers: &[WorkerRec], id: &WorkerId) -> bool
    ensures { result ≡ option_map_or is_assistant (find_worker id.now workers.now) false }
{
    match find_worker(workers, id) {
        Some(worker) => is_assistant(worker),
        None => false,
    }
}

fn find_worker<'a>(workers: &'a [WorkerRec], id: &WorkerId) -> Option<&'a WorkerRec>
    ensures { option_copied result ≡ find_worker id.now workers.now }
{
    workers.iter().find(|worker| id.cmp(&worker.id).is_eq())
}

/// Whether a task names a worker, as one of those that can run it.
pub(crate) fn names(worker: &WorkerId, task: &TaskRec) -> bool
    ensures { result ≡ names worker.now task.now }
{
    task.workers
        .as_slice()
        .iter()
        .any(|named| worker.cmp(named).is_eq())
}

// Whether no resource is named, with whatever amount.
fn has_no_resources(task: &TaskRec) -> bool
    ensures { result ≡ has_no_resources task.now }
{
    match task.resources.entries() {
        [] => true,
        _ => false,
    }
}

// Whether no PENDING task that names a worker has resources.
fn needs_nothing(worker: &WorkerId, tasks: &[TaskRec]) -> bool
    ensures { result ≡ list_all has_no_resources (pending_of worker.now tasks.now) }
{
    tasks
        .iter()
        .filter(|task| is_status(Status::Pending, task.status) && names(worker, task))
        .all(|task| has_no_resources(task))
}

/// Whether a worker is trivial: it is no assistant, and no PENDING task that names it has resources.
pub(crate) fn is_trivial(worker: &WorkerId, state: &State) -> bool
    ensures { result ≡ is_trivial worker.now state.now }
{
    !is_known_assistant(state.workers.as_slice(), worker)
        && needs_nothing(worker, state.tasks.as_slice())
}

/// Being gone over: a task may run or runs, and where the worker is trivial names it.
#[derive(Drop)]
struct GoneOver<'a> {
    worker: &'a WorkerId,
    trivial: bool,
}

impl Wanted for GoneOver<'_> {
    ghost use Rattle.lg_calls.specs.Work.Walk.{goes_over};

    ghost wants = { λ over. goes_over over.trivial over.worker.now };

    fn is_met_by(&self, task: &TaskRec) -> bool {
        (is_status(Status::Pending, task.status) || is_status(Status::Running, task.status))
            && (!self.trivial || names(self.worker, task))
    }
}

/// The tasks that a worker's search goes over, in the order of their rank. Refused only where there is no memory.
pub(crate) fn walk<'a>(
    alloc: Global,
    worker: &WorkerId,
    state: &'a State,
) -> Result<Vec<&'a TaskRec>, NoMemory>
    requires { IsValidState state.now }
    ensures { IfOk result (λ tasks. lent tasks.items ≡ walk worker.now state.now) }
{
    laws::numbers_keep_rising();
    let trivial = is_trivial(worker, state);
    let over = picked(alloc, state, &GoneOver { worker, trivial })?;
    by_rank(over)
}
