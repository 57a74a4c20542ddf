//! A task is made.
ghost use Rattle.std.specs.Prelude.{◌≡◌, IfOk, OnOk, is_some};
ghost use Rattle.lg_calls.specs.Tasks.{find_task};
ghost use Rattle.lg_calls.specs.AddTask.Making.{made, new_task, with_task};

use lg_base::{Amounts, Name, NoMemory, Seq, TaskId, Text};
use lg_calls::{State, Status, TaskRec};
use lg_retry::Failures;
use std::alloc::Global;

/// The task of an id is made where it isn't known: behind the others, with this status and priority.
pub(crate) fn with_task(
    state: &mut State,
    alloc: Global,
    status: Status,
    priority: i64,
    id: &TaskId,
) -> Result<(), NoMemory>
    ensures made { OnOk result (state.new ≡ with_task status priority state.old id.now) }
    ensures moment { OnOk result (state.new.moment ≡ state.old.moment) }
    ensures settings { OnOk result (state.new.settings ≡ state.old.settings) }
{
    if is_known(state.tasks.as_slice(), id) {
        return Ok(());
    }
    make(state, alloc, status, priority, id)
}

/// Whether the task of an id is known.
pub(crate) fn is_known(tasks: &[TaskRec], id: &TaskId) -> bool
    ensures { result ≡ is_some (find_task id.now tasks.now) }
{
    crate::change::find_task(tasks, id).is_some()
}

// A task more, behind the others. So many tasks that their numbers pass 64 bits find no memory.
fn make(
    state: &mut State,
    alloc: Global,
    status: Status,
    priority: i64,
    id: &TaskId,
) -> Result<(), NoMemory>
    ensures { OnOk result (state.new ≡ made status priority id.now state.old) }
{
    let task = new_task(alloc, status, priority, id, state)?;
    let next = state.next.checked_add(1).ok_or(NoMemory)?;
    state.tasks.push(task)?;
    state.next = next;
    Ok(())
}

// A task of which only its id, its status and its priority are known.
fn new_task(
    alloc: Global,
    status: Status,
    priority: i64,
    id: &TaskId,
    state: &State,
) -> Result<TaskRec, NoMemory>
    ensures { IfOk result (λ task. task ≡ new_task status priority id.now state.now) }
{
    let id = id.clone()?;
    let family = Text::copied(alloc, "")?;
    Ok(TaskRec {
        id,
        number: state.next,
        family: Name::from(family),
        module: None,
        params: Seq::new(alloc),
        status,
        deps: Seq::new(alloc),
        workers: Seq::new(alloc),
        stakeholders: Seq::new(alloc),
        priority,
        resources: Amounts::new(alloc),
        added: state.moment,
        updated: state.moment,
        runnable: false,
        batchable: false,
        accepts_messages: false,
        worker_running: None,
        time_running: None,
        batch: None,
        failures: Failures::new(alloc),
        policy: state.settings.policy(),
        retry: None,
        disabled_at: None,
        remove: None,
        expl: None,
        tracking_url: None,
        status_message: None,
        progress: None,
    })
}
