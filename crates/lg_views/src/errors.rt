//! Why a task failed.
ghost use Rattle.std.specs.Prelude.{◌≡◌, [], IfOk, unwrap_or};
ghost use Rattle.lg_json.specs.Tree.{tree_of};
ghost use Rattle.lg_calls.specs.Views.Errors.{error_record, known_error, unknown_error};
ghost use Rattle.lg_views.specs.Listed.{CanBeListed};

use crate::builders::Object;
use crate::leaves::{ByName, Words};
use crate::names::display_name;
use crate::tasks::found;
use lg_base::{NoMemory, TaskId};
use lg_calls::{Look, TaskRec};
use lg_json::Out;
use std::alloc::Global;

/// Why the task of an id failed, the empty text if it didn't, and what the task is; of an id that no task has, the empty
/// text and the id. Refused only where there is no memory.
pub fn fetch_error<K: Look>(alloc: Global, state: &K, id: &TaskId) -> Result<Out, NoMemory>
    requires { CanBeListed (K.state state.now) }
    ensures { IfOk result (λ out. tree_of out ≡ error_record (K.state state.now) id.now) }
{
    match found(state, id) {
        Some(task) => error_of(alloc, id, task),
        None => no_error_of(alloc, id),
    }
}

fn error_of(alloc: Global, id: &TaskId, task: &TaskRec) -> Result<Out, NoMemory>
    ensures { IfOk result (λ out. tree_of out ≡ known_error id.now task.now) }
{
    let shown_name = display_name(alloc, task)?;
    let mut object = Object::new(alloc);
    object.put("displayName", &shown_name)?;
    object.put("error", &Words(expl_of(task)))?;
    object.put("taskFamily", &task.family)?;
    object.put("taskId", id)?;
    object.put("taskModule", &task.module)?;
    object.put("taskParams", &ByName(task.params.as_slice()))?;
    Ok(object.into_out())
}

fn no_error_of(alloc: Global, id: &TaskId) -> Result<Out, NoMemory>
    ensures { IfOk result (λ out. tree_of out ≡ unknown_error id.now) }
{
    let mut object = Object::new(alloc);
    object.put("error", &Words(""))?;
    object.put("taskId", id)?;
    Ok(object.into_out())
}

// Why a task failed, the empty text if it didn't.
fn expl_of(task: &TaskRec) -> &str
    ensures { result.now ≡ unwrap_or task.now.expl [] }
{
    match &task.expl {
        Some(expl) => expl.as_str(),
        None => "",
    }
}
