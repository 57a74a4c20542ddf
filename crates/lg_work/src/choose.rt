//! Which task a worker gets.
ghost use Rattle.std.specs.Prelude.{◌≡◌, ◌≤◌, ◌&&◌, length, IfOk};
ghost use Rattle.std.specs.Option.{option_copied};
ghost use Rattle.lg_calls.specs.Look.{CanBeLookedAt};
ghost use Rattle.lg_calls.specs.Valid.{IsValidState};
ghost use Rattle.lg_calls.specs.Work.Candidate.{is_allowed, first_candidate};
ghost use Rattle.lg_calls.specs.Work.Fits.{fits};
ghost use Rattle.lg_calls.specs.Work.Reserved.{can_be_kept};
ghost use Rattle.lg_calls.specs.Work.Walk.{taken};
ghost use Rattle.lg_views.specs.Lent.{lent};
ghost use Rattle.lg_work.specs.Choosing.{first_from};
ghost use Rattle.lg_work.specs.Reserving.{reserved_in, IsWithin};
ghost use Rattle.lg_work.specs.Sums.{sum_of};

use crate::fits::fits_beside;
use crate::reserve::Reserved;
use crate::sums::Sums;
use crate::taken::taken;
use crate::walk::{names, walk};
use lg_base::NoMemory;
use lg_calls::{GetWork, State, TaskRec, laws};
use std::alloc::Global;

/// The first task of a worker's walk that can be given, if there is one. Refused only where there is no memory.
pub fn first_candidate<'a>(
    alloc: Global,
    ask: &GetWork,
    state: &'a State,
) -> Result<Option<&'a TaskRec>, NoMemory>
    requires { IsValidState state.now }
    ensures { IfOk result (λ task. option_copied task ≡ first_candidate ask.now state.now) }
{
    laws::numbers_keep_rising();
    laws::who_walks_by_rank();
    let walk = walk(alloc, &ask.worker, state)?;
    let taken = taken(alloc, &ask.worker, state)?;
    let reserved = Reserved::nothing(alloc, ask, state)?;
    first_from(ask, state, &taken, reserved, walk.as_slice())
}

// The first task that can be given, where those before it reserve more and more.
fn first_from<'a>(
    ask: &GetWork,
    state: &State,
    sums: &Sums,
    mut reserved: Reserved<'_>,
    tasks: &[&'a TaskRec],
) -> Result<Option<&'a TaskRec>, NoMemory>
    requires looked_at { CanBeLookedAt state.now }
    requires taken { sum_of sums.now ≡ taken ask.now.worker state.now }
    requires within { IsWithin 0 (reserved_in reserved) }
    requires few { length tasks.now ≤ 1000000 }
    ensures { IfOk result (λ task. option_copied task
        ≡ first_from ask.now state.now (reserved_in reserved.entry) (lent tasks.now)) }
{
    for task in tasks {
        if is_candidate(ask, state, sums, &reserved, task) {
            return Ok(Some(*task));
        }
        reserved.put_next(ask, state, task)?;
    }
    Ok(None)
}

// Whether a task can be given: it can be kept, is allowed, and fits beside what is taken.
fn is_candidate(
    ask: &GetWork,
    state: &State,
    sums: &Sums,
    reserved: &Reserved,
    task: &TaskRec,
) -> bool
    requires { CanBeLookedAt state.now }
    ensures { result ≡ (can_be_kept state.now (reserved_in reserved.now) task.now
        && (is_allowed ask.now task.now && fits state.now.limits (sum_of sums.now) task.now.resources)) }
{
    reserved.can_keep(state, task) && (is_allowed(ask, task) && fits_beside(state, sums, task))
}

// Whether a task names the worker, or an assistant asks and anyone may run it.
fn is_allowed(ask: &GetWork, task: &TaskRec) -> bool
    ensures { result ≡ is_allowed ask.now task.now }
{
    names(&ask.worker, task) || (ask.assistant && task.runnable)
}
