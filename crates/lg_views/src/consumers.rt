//! The limits, and who takes of each.
ghost use Rattle.std.specs.Prelude.{◌≡◌, IfOk};
ghost use Rattle.lg_json.specs.Tree.{tree_of};
ghost use Rattle.lg_views.specs.Lent.{lent, CanBeShown};
ghost use Rattle.lg_views.specs.Listed.{CanBeListed};
ghost use Rattle.lg_calls.specs.Views.ResourceList as spec;

use crate::builders::Object;
use crate::picking::{picked, picked_among};
use crate::records::{ById, in_order_of_ids};
use crate::usage::used_by;
use crate::wishes::{Having, Taking};
use lg_base::{Name, NoMemory};
use lg_calls::{Look, Status, TaskRec};
use lg_json::Out;
use std::alloc::Global;

/// Each limit, in the order of the names' bytes, with its amount, how much is in use, and the records of the RUNNING tasks
/// whose resources name it. Each task is looked at once, and each RUNNING task twice a limit. Refused only where there is no
/// memory.
pub fn resource_list<K: Look>(alloc: Global, state: &K) -> Result<Out, NoMemory>
    requires { CanBeListed (K.state state.now) }
    ensures { IfOk result (λ out. tree_of out ≡ spec.resource_list (K.state state.now)) }
{
    let running = picked(alloc, state, &Having(Status::Running))?;
    let tasks = running.as_slice();
    let limits = state.limits().entries();
    let mut outs = Vec::with_capacity(alloc, limits.len())?;
    for (name, total) in limits {
        let out = limit_record(alloc, tasks, name, *total)?;
        outs.push(out)?;
    }
    Ok(Out::List(outs))
}

// What is shown of a limit, given the RUNNING tasks.
fn limit_record(
    alloc: Global,
    running: &[&TaskRec],
    name: &Name,
    total: u32,
) -> Result<Out, NoMemory>
    requires { CanBeShown (lent running.now) }
    ensures { IfOk result (λ out. tree_of out ≡ spec.limit_record (lent running.now) name.now total) }
{
    let takers = picked_among(alloc, running, &Taking(name))?;
    let count = takers.len();
    let sorted = in_order_of_ids(takers)?;
    let mut object = Object::new(alloc);
    object.put("name", name)?;
    object.put("num_consumer", &(count as u64))?;
    object.put("num_total", &total)?;
    object.put("num_used", &used_by(running, name))?;
    object.put("running", &ById(sorted.as_slice()))?;
    Ok(object.into_out())
}
