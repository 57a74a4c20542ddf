//! The steps of `add_task` on a state, in their order. Where there is no memory a state is left anyhow.
ghost use Rattle.std.specs.Prelude.{◌≡◌, ◌+◌, ◌<◌, ◌^◌, IfOk, IsTrue, OnOk, fold};
ghost use Rattle.lg_calls.specs.declared.status.Status.TheVariants.{Unknown};
ghost use Rattle.lg_calls.specs.Methods.AddTask.{add_task_in_range};
ghost use Rattle.lg_calls.specs.Tasks.{have_distinct_ids};
ghost use Rattle.lg_calls.specs.AddTask.Adding.{Adds, added, carried, has_no_room};
ghost use Rattle.lg_calls.specs.AddTask.Describing.{batch_told, by_task, task_described, task_changed};
ghost use Rattle.lg_plain.specs.Parts.{part_changed};
ghost use Rattle.lg_calls.specs.AddTask.Making.{with_task};
ghost use Rattle.lg_calls.specs.AddTask.Offering.{offered, urged};
ghost use Rattle.lg_calls.specs.AddTask.Reporting.{needs_reported, task_reported, resources_set, status_counted};
ghost use Rattle.lg_calls.specs.AddTask.Wanting.{wanted};

use super::changes::{OfTask, Part, Staking, Telling};
use super::describing::{batch_meant, replaces_url};
use super::ending::ends;
use super::making::with_task;
use super::offering::{offers, policy_with};
use super::reporting::{counts, resources_behind, status_of};
use super::touching::touch;
use super::urging::pass_on;
use super::walk::change_tasks;
use super::wanting::{ids_wanted, wants};
use crate::change::{find_task, set};
use crate::rules::is_running;
use lg_base::{NoMemory, TaskId};
use lg_calls::{AddTask, State, Status, StepFault};
use std::alloc::Global;

// The greatest number of a task, and one more.
const MAX_NEXT: u64 = 1 << 62;

/// `add_task`, at the moment of the state. `Full` with the number of the tasks where tasks would be made and the tasks with
/// them would pass `max_tasks`, or their numbers 2^62. All is done on a copy first: a refusal leaves the state as it was.
pub fn add_task(state: &mut State, alloc: Global, ask: &AddTask) -> Result<(), StepFault>
    requires retry_fits { state.old.moment.0 + state.old.settings.retry_delay < 2 ^ 64 }
    requires in_range { IsTrue (add_task_in_range ask.now) }
    requires distinct { IsTrue (have_distinct_ids state.old.tasks) }
    ensures { Adds ask.now state.old state.new result }
{
    match after(state, alloc, ask) {
        Err(NoMemory) => Err(StepFault::NoMemory),
        Ok(next) if has_no_room(state, &next) => Err(StepFault::Full(state.tasks.len() as u64)),
        Ok(next) => {
            *state = next;
            Ok(())
        }
    }
}

// The state behind the steps.
fn after(state: &State, alloc: Global, ask: &AddTask) -> Result<State, NoMemory>
    requires retry_fits { state.now.moment.0 + state.now.settings.retry_delay < 2 ^ 64 }
    requires in_range { IsTrue (add_task_in_range ask.now) }
    requires distinct { IsTrue (have_distinct_ids state.now.tasks) }
    ensures { IfOk result (λ next. next ≡ added ask.now state.now) }
{
    let mut next = state.copy()?;
    add(&mut next, alloc, ask)?;
    Ok(next)
}

// Whether tasks were made, and they are too many, or their numbers pass the greatest.
fn has_no_room(before: &State, after: &State) -> bool
    ensures { result ≡ has_no_room before.now after.now }
{
    let too_many = before.settings.max_tasks < after.tasks.len() as u64;
    before.next < after.next && (too_many || MAX_NEXT < after.next)
}

// The worker is touched, and unless the step ends there, it is carried out.
fn add(state: &mut State, alloc: Global, ask: &AddTask) -> Result<(), NoMemory>
    requires retry_fits { state.old.moment.0 + state.old.settings.retry_delay < 2 ^ 64 }
    requires in_range { IsTrue (add_task_in_range ask.now) }
    requires distinct { IsTrue (have_distinct_ids state.old.tasks) }
    ensures { OnOk result (state.new ≡ added ask.now state.old) }
{
    touch(state, alloc, &ask.worker)?;
    if ends(ask, state) {
        return Ok(());
    }
    carry_out(state, alloc, ask)
}

fn carry_out(state: &mut State, alloc: Global, ask: &AddTask) -> Result<(), NoMemory>
    requires retry_fits { state.old.moment.0 + state.old.settings.retry_delay < 2 ^ 64 }
    requires in_range { IsTrue (add_task_in_range ask.now) }
    requires distinct { IsTrue (have_distinct_ids state.old.tasks) }
    ensures { OnOk result (state.new ≡ carried ask.now state.old) }
{
    with_task(state, alloc, Status::Pending, ask.priority, &ask.task_id)?;
    describe(state, alloc, ask)?;
    report(state, alloc, ask)?;
    want(state, alloc, ask)?;
    offer(state, alloc, ask)
}

// The task is filled and its fields are replaced, and its batch is told.
fn describe(state: &mut State, alloc: Global, ask: &AddTask) -> Result<(), NoMemory>
    ensures described { OnOk result (state.new ≡ task_described ask.now state.old) }
    ensures moment { OnOk result (state.new.moment ≡ state.old.moment) }
    ensures settings { OnOk result (state.new.settings ≡ state.old.settings) }
{
    change_part(state, alloc, ask, Part::Fill)?;
    tell_batch(state, alloc, ask)?;
    change_part(state, alloc, ask, Part::Replace)
}

// One part of the task of the call is changed.
fn change_part(state: &mut State, alloc: Global, ask: &AddTask, part: Part) -> Result<(), NoMemory>
    ensures { OnOk result (state.new ≡ task_changed ask.now (part_changed ask.now part) state.old) }
{
    change_tasks(state, alloc, &OfTask { ask, part })
}

// Those that run in the batch of the task are told the same of their work.
fn tell_batch(state: &mut State, alloc: Global, ask: &AddTask) -> Result<(), NoMemory>
    ensures told { OnOk result (state.new ≡ by_task ask.now (batch_told ask.now) state.old) }
    ensures moment { OnOk result (state.new.moment ≡ state.old.moment) }
    ensures settings { OnOk result (state.new.settings ≡ state.old.settings) }
{
    match find_task(state.tasks.as_slice(), &ask.task_id) {
        None => Ok(()),
        Some(task) => {
            let batch = batch_meant(ask, task)?;
            let replaces = replaces_url(ask, task);
            change_tasks(
                state,
                alloc,
                &Telling {
                    ask,
                    batch,
                    replaces,
                },
            )
        }
    }
}

// The status, and behind it what the task needs.
fn report(state: &mut State, alloc: Global, ask: &AddTask) -> Result<(), NoMemory>
    requires { state.old.moment.0 + state.old.settings.retry_delay < 2 ^ 64 }
    ensures { OnOk result (state.new ≡ task_reported ask.now state.old) }
{
    match find_task(state.tasks.as_slice(), &ask.task_id) {
        None => Ok(()),
        Some(task) => {
            let before = task.status;
            if counts(ask, task) {
                count_status(state, alloc, ask, before)?;
            }
            report_needs(state, alloc, ask, before)
        }
    }
}

// The task is set to the status, and if it runs now and didn't before, it begins to.
fn count_status(
    state: &mut State,
    alloc: Global,
    ask: &AddTask,
    before: Status,
) -> Result<(), NoMemory>
    requires { state.old.moment.0 + state.old.settings.retry_delay < 2 ^ 64 }
    ensures { OnOk result (state.new ≡ status_counted ask.now before state.old) }
{
    set(state, alloc, &ask.task_id, status_of(ask.status))?;
    if is_running(before) {
        return Ok(());
    }
    let now = state.moment;
    change_part(state, alloc, ask, Part::Begin(now))
}

// Dependencies, and behind them resources.
fn report_needs(
    state: &mut State,
    alloc: Global,
    ask: &AddTask,
    before: Status,
) -> Result<(), NoMemory>
    ensures { OnOk result (state.new ≡ needs_reported ask.now before state.old) }
{
    change_part(state, alloc, ask, Part::Depend)?;
    set_resources(state, alloc, ask, before)
}

fn set_resources(
    state: &mut State,
    alloc: Global,
    ask: &AddTask,
    before: Status,
) -> Result<(), NoMemory>
    ensures { OnOk result (state.new ≡ by_task ask.now (resources_set ask.now before) state.old) }
{
    let tasks = state.tasks.as_slice();
    match find_task(tasks, &ask.task_id) {
        None => Ok(()),
        Some(task) => {
            let resources = resources_behind(ask, before, task, tasks)?;
            change_part(state, alloc, ask, Part::Resources(resources))
        }
    }
}

// The worker is a stakeholder of the task and of its dependencies, of which each that isn't known is made.
fn want(state: &mut State, alloc: Global, ask: &AddTask) -> Result<(), NoMemory>
    ensures { OnOk result (state.new ≡ wanted ask.now state.old) }
{
    if !wants(ask, state) {
        return Ok(());
    }
    match find_task(state.tasks.as_slice(), &ask.task_id) {
        None => Ok(()),
        Some(task) => {
            let ids = ids_wanted(alloc, task)?;
            let deps = task.deps.clone()?;
            make_deps(state, alloc, ask, deps.as_slice())?;
            change_tasks(
                state,
                alloc,
                &Staking {
                    worker: &ask.worker,
                    ids,
                },
            )
        }
    }
}

// Each of these that isn't known is made.
fn make_deps(
    state: &mut State,
    alloc: Global,
    ask: &AddTask,
    deps: &[TaskId],
) -> Result<(), NoMemory>
    ensures { OnOk result (state.new ≡ fold (with_task Unknown ask.now.priority) state.old deps.now) }
{
    for dep in deps {
        with_task(state, alloc, Status::Unknown, ask.priority, dep)?;
    }
    Ok(())
}

// Priority, policy and worker.
fn offer(state: &mut State, alloc: Global, ask: &AddTask) -> Result<(), NoMemory>
    requires in_range { IsTrue (add_task_in_range ask.now) }
    requires distinct { IsTrue (have_distinct_ids state.old.tasks) }
    ensures { OnOk result (state.new ≡ offered ask.now state.old) }
{
    let offers = offers(ask, state);
    let policy = policy_with(&ask.retry_policy, &state.settings.policy());
    urge(state, alloc, ask)?;
    change_part(state, alloc, ask, Part::Policy(policy))?;
    if offers {
        change_part(state, alloc, ask, Part::Offer)
    } else {
        Ok(())
    }
}

// The task is as urgent as the call says, and what it waits for is as urgent as it is.
fn urge(state: &mut State, alloc: Global, ask: &AddTask) -> Result<(), NoMemory>
    requires { IsTrue (have_distinct_ids state.old.tasks) }
    ensures { OnOk result (state.new ≡ urged ask.now state.old) }
{
    change_part(state, alloc, ask, Part::Raise)?;
    pass_on(state, alloc, ask)
}
