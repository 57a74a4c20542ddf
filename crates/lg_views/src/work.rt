//! What a worker that asks for work is told.
ghost use Rattle.std.specs.Prelude.{◌≡◌, ◌++◌, IfOk, OnOk, Some};
ghost use Rattle.std.specs.Option.{option_copied};
ghost use Rattle.lg_calls.specs.Methods.GetWork as spec;
ghost use Rattle.lg_json.specs.Tree.{tree_of};
ghost use Rattle.lg_views.specs.Fields.{fields_in};
ghost use Rattle.lg_views.specs.Listed.{CanBeListed};

use crate::builders::Object;
use crate::leaves::{ByName, Null};
use crate::pending::{put_counts_of, put_no_counts, put_state};
use lg_base::{NoMemory, WorkerId};
use lg_calls::{Look, TaskRec};
use lg_json::Out;
use std::alloc::Global;

/// The reply to a worker that asks for work: how much there is to do for it, as `count_pending` tells it; of the task that it
/// is given the family, the id, the module and the parameters, or null as the id where it is given none; and whether the
/// worker gets work. Refused only where there is no memory.
pub fn work_reply<K: Look>(
    alloc: Global,
    state: &K,
    worker: &WorkerId,
    given: Option<&TaskRec>,
) -> Result<Out, NoMemory>
    requires { CanBeListed (K.state state.now) }
    ensures { IfOk result (λ out. tree_of out ≡ spec.work_reply worker.now (K.state state.now) (option_copied given.entry)) }
{
    let mut object = Object::new(alloc);
    put_counts_of(alloc, state, worker, &mut object)?;
    put_given(given, &mut object)?;
    put_state(state, worker, &mut object)?;
    Ok(object.into_out())
}

/// The reply to a worker that asks for work and gets none because it is disabled: nothing is counted, the task's id is null,
/// and it is told whether the worker gets work. Refused only where there is no memory.
pub fn nothing_to_do<K: Look>(alloc: Global, state: &K, worker: &WorkerId) -> Result<Out, NoMemory>
    requires { CanBeListed (K.state state.now) }
    ensures { IfOk result (λ out. tree_of out ≡ spec.nothing_to_do worker.now (K.state state.now)) }
{
    let mut object = Object::new(alloc);
    put_no_counts(worker, &mut object)?;
    put_given(None, &mut object)?;
    put_state(state, worker, &mut object)?;
    Ok(object.into_out())
}

// What is said of the task that is given, if one is.
fn put_given(given: Option<&TaskRec>, object: &mut Object) -> Result<(), NoMemory>
    ensures { OnOk result (fields_in object.new ≡ fields_in object.old ++ spec.given_fields (option_copied given.entry)) }
{
    match given {
        None => object.put("task_id", &Null),
        Some(task) => put_task(task, object),
    }
}

// What is said of a task that is given.
fn put_task(task: &TaskRec, object: &mut Object) -> Result<(), NoMemory>
    ensures { OnOk result (fields_in object.new ≡ fields_in object.old ++ spec.given_fields (Some task.now)) }
{
    object.put("task_family", &task.family)?;
    object.put("task_id", &task.id)?;
    object.put("task_module", &task.module)?;
    object.put("task_params", &ByName(task.params.as_slice()))
}
