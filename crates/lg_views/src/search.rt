//! Searching tasks by their ids.
ghost use Rattle.std.specs.Prelude.{◌≡◌, ◌++◌, IfOk, OnOk, flat_map};
ghost use Rattle.lg_json.specs.Tree.{tree_of};
ghost use Rattle.lg_views.specs.Fields.{fields_in};
ghost use Rattle.lg_views.specs.Lent.{lent, CanBeShown};
ghost use Rattle.lg_views.specs.Listed.{CanBeListed};
ghost use Rattle.lg_calls.specs.Views.TaskSearch as spec;

use crate::builders::Object;
use crate::picking::{picked, picked_among};
use crate::records::{ById, in_order_of_ids};
use crate::wishes::{Having, HoldingPart};
use lg_base::{NoMemory, Text};
use lg_calls::{Look, Status, TaskRec};
use lg_json::Out;
use std::alloc::Global;

/// The tasks whose id has a text in it: by the words of the statuses that occur, an object of their records by id. Each task
/// is looked at once. Refused only where there is no memory.
pub fn task_search<K: Look>(alloc: Global, state: &K, part: &Text) -> Result<Out, NoMemory>
    requires { CanBeListed (K.state state.now) }
    ensures { IfOk result (λ out. tree_of out ≡ spec.task_search (K.state state.now) part.now) }
{
    let found = picked(alloc, state, &HoldingPart(part))?;
    let mut object = Object::new(alloc);
    let statuses = [
        Status::BatchRunning,
        Status::Disabled,
        Status::Done,
        Status::Failed,
        Status::Pending,
        Status::Running,
        Status::Unknown,
    ];
    put_groups(alloc, found.as_slice(), &statuses, &mut object)?;
    Ok(object.into_out())
}

fn put_groups(
    alloc: Global,
    tasks: &[&TaskRec],
    statuses: &[Status],
    object: &mut Object,
) -> Result<(), NoMemory>
    requires { CanBeShown (lent tasks.now) }
    ensures { OnOk result (fields_in object.new ≡ fields_in object.old ++ flat_map (spec.group (lent tasks.now)) statuses.now) }
{
    for status in statuses {
        put_group(alloc, tasks, *status, object)?;
    }
    Ok(())
}

// The tasks of a status, where there are some.
fn put_group(
    alloc: Global,
    tasks: &[&TaskRec],
    status: Status,
    object: &mut Object,
) -> Result<(), NoMemory>
    requires { CanBeShown (lent tasks.now) }
    ensures { OnOk result (fields_in object.new ≡ fields_in object.old ++ spec.group (lent tasks.now) status) }
{
    let group = picked_among(alloc, tasks, &Having(status))?;
    put_some(group, status, object)
}

// The records of tasks under the word of their status, where there are some.
fn put_some(tasks: Vec<&TaskRec>, status: Status, object: &mut Object) -> Result<(), NoMemory>
    requires { CanBeShown (lent tasks.items) }
    ensures { OnOk result (fields_in object.new ≡ fields_in object.old ++ spec.group_of status (lent tasks.entry.items)) }
{
    if tasks.is_empty() {
        return Ok(());
    }
    let sorted = in_order_of_ids(tasks)?;
    object.put(status.word(), &ById(sorted.as_slice()))
}
