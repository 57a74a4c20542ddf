//! What a task waits for at worst.
ghost use Rattle.std.specs.Prelude.{◌≡◌, ◌∷◌, [], false, true, not, ◌&&◌, IfOk, if◌then◌else◌, length};
ghost use Rattle.lg_calls.specs.Look.{CanBeLookedAt};
ghost use Rattle.lg_calls.specs.Paths.{is_path_through};
ghost use Rattle.lg_calls.specs.Upstream as spec;
ghost use Rattle.lg_views.specs.Upstream.{is_worst_of_all};
ghost use Rattle.lg_views.specs.Walking.{IsFresh, IsMarkedBy, Marks, has_one_of};

use crate::statuses::is_status;
use crate::walk::Walk;
use lg_base::{NoMemory, TaskId};
use lg_calls::{Look, Status, TaskRec, UpstreamStatus, laws};
use std::alloc::Global;

/// What a task waits for at worst (Luigi's upstream status): where the task is PENDING and has dependencies, the worst of
/// those that aren't so themselves and to which a path of dependencies leads through such tasks; of any other task what its
/// own status says. None is the answer where nothing is waited for. The walk looks at each place at most once, and then all
/// places are looked at once for the worst. The memory that is taken is a mark and a place for each place of the state, and
/// nothing where the task isn't open. Refused only where there is no memory.
pub fn upstream_status<K: Look>(
    alloc: Global,
    state: &K,
    task: &TaskRec,
) -> Result<Option<UpstreamStatus>, NoMemory>
    requires { CanBeLookedAt (K.state state.now) }
    ensures { IfOk result (λ worst. worst ≡ spec.upstream_status (K.state state.now).tasks task.now) }
{
    if is_open(task) {
        worst_waited_for(alloc, state, task)
    } else {
        Ok(own_upstream(task.status))
    }
}

/// Whether a task is disabled, or waits for one that is. Refused only where there is no memory.
pub(crate) fn is_hopeless<K: Look>(
    alloc: Global,
    state: &K,
    task: &TaskRec,
) -> Result<bool, NoMemory>
    requires { CanBeLookedAt (K.state state.now) }
    ensures { IfOk result (λ hopeless. hopeless ≡ spec.is_hopeless (K.state state.now).tasks task.now) }
{
    let worst = upstream_status(alloc, state, task)?;
    Ok(is_disabled(worst))
}

// Whether the worst is that a task is disabled.
fn is_disabled(worst: Option<UpstreamStatus>) -> bool
    ensures { result ≡ is_worst_of_all worst }
{
    match worst {
        Some(UpstreamStatus::Disabled) => true,
        Some(_) | None => false,
    }
}

// The worst of what those are by themselves for which an open task waits in the end.
fn worst_waited_for<K: Look>(
    alloc: Global,
    state: &K,
    task: &TaskRec,
) -> Result<Option<UpstreamStatus>, NoMemory>
    requires { CanBeLookedAt (K.state state.now) }
    ensures { IfOk result (λ worst. worst ≡ spec.worst_of (spec.waited_for (K.state state.now).tasks task.now)) }
{
    let walk = walked(alloc, state, task)?;
    let mut worst = None;
    for place in 0..state.places() {
        match state.at(place) {
            None => continue,
            Some(other) => worst = worst_with(worst, other, walk.marks[place as usize]),
        }
    }
    Ok(worst)
}

// The worse of two, where the other is that of a task that is waited for in the end.
fn worst_with(
    worst: Option<UpstreamStatus>,
    other: &TaskRec,
    is_reached: bool,
) -> Option<UpstreamStatus>
    ensures { result ≡ (if not (spec.is_open other.now) && is_reached then spec.worse worst (spec.own_upstream other.now.status) else worst) }
{
    if !is_open(other) && is_reached {
        worse(worst, own_upstream(other.status))
    } else {
        worst
    }
}

// A walk that has marked each task to which a path leads from this one.
fn walked<K: Look>(alloc: Global, state: &K, task: &TaskRec) -> Result<Walk, NoMemory>
    requires { CanBeLookedAt (K.state state.now) }
    ensures { IfOk result (IsMarkedBy (K.shelf state.now) (is_path_through spec.waits_for (K.state state.now).tasks task.now)) }
{
    let mut walk = Walk::new(alloc, state.places())?;
    walk_from(state, &mut walk, task);
    Ok(walk)
}

// Marks each task to which a path leads from this one.
fn walk_from<K: Look>(state: &K, walk: &mut Walk, task: &TaskRec)
    requires look { CanBeLookedAt (K.state state.now) }
    requires fresh { IsFresh (length (K.shelf state.now)) walk.old }
    ensures { IsMarkedBy (K.shelf state.now) (is_path_through spec.waits_for (K.state state.now).tasks task.now) walk.new }
{
    spread(state, walk, task);
    while let Some(place) = walk.take() {
        match state.at(place) {
            None => continue,
            Some(next) => spread(state, walk, next),
        }
    }
}

// Marks each task for which an open one waits.
fn spread<K: Look>(state: &K, walk: &mut Walk, task: &TaskRec)
    requires look { CanBeLookedAt (K.state state.now) }
    requires count { length walk.old.marks.items ≡ length (K.shelf state.now) }
    ensures { Marks (K.shelf state.now) (spec.waits_for task.now) walk.old walk.new }
{
    if is_open(task) {
        spread_to(state, walk, task.deps.as_slice());
    }
}

// Marks each task that has one of these ids.
fn spread_to<K: Look>(state: &K, walk: &mut Walk, ids: &[TaskId])
    requires look { CanBeLookedAt (K.state state.now) }
    requires count { length walk.old.marks.items ≡ length (K.shelf state.now) }
    ensures { Marks (K.shelf state.now) (has_one_of ids.now) walk.old walk.new }
{
    for id in ids {
        reach(state, walk, id);
    }
}

// Marks the task of an id.
fn reach<K: Look>(state: &K, walk: &mut Walk, id: &TaskId)
    requires look { CanBeLookedAt (K.state state.now) }
    requires count { length walk.old.marks.items ≡ length (K.shelf state.now) }
    ensures { Marks (K.shelf state.now) (has_one_of (id.now ∷ [])) walk.old walk.new }
{
    laws::who_is_found_stands_at_its_place();
    if let Some(place) = state.find(id) {
        if !walk.marks[place as usize] {
            walk.mark(place);
        }
    }
}

// Whether a task is PENDING and waits for others.
#[tactic(auto, using(crate::proofs::UpstreamLemmas::open_is))]
fn is_open(task: &TaskRec) -> bool
    ensures { result ≡ spec.is_open task.now }
{
    let waits = !task.deps.is_empty();
    is_status(Status::Pending, task.status) && waits
}

// What a status by itself means to those that wait.
fn own_upstream(status: Status) -> Option<UpstreamStatus>
    ensures { result ≡ spec.own_upstream status }
{
    match status {
        Status::Pending => Some(UpstreamStatus::MissingInput),
        Status::Running | Status::BatchRunning => Some(UpstreamStatus::Running),
        Status::Failed => Some(UpstreamStatus::Failed),
        Status::Disabled => Some(UpstreamStatus::Disabled),
        Status::Done | Status::Unknown => None,
    }
}

// The worse of two, where there are both.
fn worse(one: Option<UpstreamStatus>, other: Option<UpstreamStatus>) -> Option<UpstreamStatus>
    ensures { result ≡ spec.worse one other }
{
    match (one, other) {
        (None, _) => other,
        (Some(_), None) => one,
        (Some(here), Some(there)) => {
            if severity(there) <= severity(here) {
                one
            } else {
                other
            }
        }
    }
}

// How bad it is.
fn severity(status: UpstreamStatus) -> u32
    ensures { result ≡ spec.severity status }
{
    match status {
        UpstreamStatus::Running => 1,
        UpstreamStatus::MissingInput => 2,
        UpstreamStatus::Failed => 3,
        UpstreamStatus::Disabled => 4,
    }
}
