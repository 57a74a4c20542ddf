//! The records of tasks by id.
ghost use Rattle.std.specs.Cmp.Lexicographic.{slice_cmp};
ghost use Rattle.std.specs.FinMap.{entries};
ghost use Rattle.std.specs.Ordering.{nat_cmp};
ghost use Rattle.std.specs.Prelude.{◌≡◌, [], ◌∷◌, ◌++◌, All, IfOk, OnOk, map};
ghost use Rattle.lg_calls.specs.Valid.{IsValidTask};
ghost use Rattle.lg_views.specs.Fields.{fields_in};
ghost use Rattle.lg_views.specs.Lent.{lent, CanBeShown};
ghost use Rattle.lg_views.specs.Listed.{last_moment};
ghost use Rattle.lg_calls.specs.Views.Records.{by_ids};
ghost use Rattle.lg_calls.specs.Views.TaskRecord.{task_record};
ghost use Rattle.lg_calls.specs.Views.Trees.{record_of};

use crate::builders::{Object, Shown};
use lg_base::NoMemory;
use lg_calls::TaskRec;
use lg_json::Out;
use std::alloc::Global;
use std::cmp::Ordering;

/// Tasks that are shown as an object of their records by id, in the order in which they stand.
#[derive(Drop)]
pub(crate) struct ById<'a>(pub(crate) &'a [&'a TaskRec]);

impl Shown for ById<'_> {
    ghost tree = { λ tasks. record_of (map (λ task. (task.now.id, task_record task.now)) tasks.0.now) };

    ghost fits = { λ tasks. All (λ task. IsValidTask last_moment task.now) tasks.0.now };

    fn show(&self, alloc: Global) -> Result<Out, NoMemory> {
        let tasks = self.0;
        let mut object = Object::new(alloc);
        for task in tasks {
            put_record(task, &mut object)?;
        }
        Ok(object.into_out())
    }
}

fn put_record(task: &TaskRec, object: &mut Object) -> Result<(), NoMemory>
    requires { IsValidTask last_moment task.now }
    ensures { OnOk result (fields_in object.new ≡ fields_in object.old ++ (task.now.id, task_record task.now) ∷ []) }
{
    object.put(task.id.as_str(), task)
}

/// The tasks in the order of their ids' bytes. Refused only where there is no memory.
pub(crate) fn in_order_of_ids(tasks: Vec<&TaskRec>) -> Result<Vec<&TaskRec>, NoMemory>
    requires { CanBeShown (lent tasks.items) }
    ensures same { IfOk result (λ sorted. map (λ task. (task.now.id, task.now)) sorted.items ≡ entries (by_ids (lent tasks.entry.items))) }
    ensures valid { IfOk result (λ sorted. All (λ task. IsValidTask last_moment task.now) sorted.items) }
{
    let mut sorted = tasks;
    sorted.sort_by(|one, other| order_of(one, other))?;
    Ok(sorted)
}

// Which of two tasks is first in the order of their ids' bytes.
fn order_of(one: &TaskRec, other: &TaskRec) -> Ordering
    ensures { result ≡ slice_cmp nat_cmp one.now.id other.now.id }
{
    one.id.cmp(&other.id)
}
