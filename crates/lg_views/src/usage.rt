//! The limits and what is in use of each.
ghost use Rattle.std.specs.Prelude.{◌≡◌, ◌^◌, ◌<◌, ◌≤◌, IfOk, length};
ghost use Rattle.lg_base.specs.Amounts.{amount_of};
ghost use Rattle.lg_json.specs.Tree.{tree_of};
ghost use Rattle.lg_views.specs.Lent.{lent};
ghost use Rattle.lg_views.specs.Listed.{CanBeListed};
ghost use Rattle.lg_calls.specs.Views.Resources as spec;
ghost use Rattle.lg_calls.specs.Use.{use_by};

use crate::builders::{Object, Shown};
use crate::picking::picked;
use crate::wishes::Having;
use lg_base::{Name, NoMemory};
use lg_calls::{Look, Status, TaskRec};
use lg_json::Out;
use std::alloc::Global;

/// Each limit by its name, with its amount and how much is in use. Each task is looked at once, and each RUNNING task once a
/// limit. Refused only where there is no memory.
pub fn resources<K: Look>(alloc: Global, state: &K) -> Result<Out, NoMemory>
    requires { CanBeListed (K.state state.now) }
    ensures { IfOk result (λ out. tree_of out ≡ spec.resources (K.state state.now)) }
{
    let running = picked(alloc, state, &Having(Status::Running))?;
    let tasks = running.as_slice();
    let limits = state.limits().entries();
    let mut object = Object::new(alloc);
    for (name, total) in limits {
        let used = used_by(tasks, name);
        object.put(
            name.as_str(),
            &Resource {
                total: *total,
                used,
            },
        )?;
    }
    Ok(object.into_out())
}

// A limit, and what is in use of it.
#[derive(Clone, Copy)]
struct Resource {
    total: u32,
    used: u64,
}

impl Shown for Resource {
    ghost tree = { λ resource. spec.resource_tree resource.total resource.used };

    ghost fits = { λ resource. resource.used < 2 ^ 63 };

    fn show(&self, alloc: Global) -> Result<Out, NoMemory> {
        let mut object = Object::new(alloc);
        object.put("total", &self.total)?;
        object.put("used", &self.used)?;
        Ok(object.into_out())
    }
}

/// What some tasks take of a resource together.
pub(crate) fn used_by(tasks: &[&TaskRec], name: &Name) -> u64
    requires { length tasks.now ≤ 1000000 }
    ensures sum { result ≡ use_by (lent tasks.now) name.now }
    ensures small { result < 2 ^ 63 }
{
    let mut used = 0;
    for task in tasks {
        used += u64::from(taken_by(task, name));
    }
    used
}

// What a task takes of a resource.
fn taken_by(task: &TaskRec, name: &Name) -> u32
    ensures { result ≡ amount_of task.now.resources name.now }
{
    task.resources.get(name)
}
