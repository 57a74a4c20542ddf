//! Raised priorities: a task that something urgent waits for becomes urgent. First the walk marks which tasks are raised,
//! and then they are changed in place. The walk looks at each of them once, and doesn't recurse.
ghost use Rattle.std.specs.Prelude.{◌≡◌, ◌<◌, int_lt, IsTrue, OnOk, OnErr, [], ◌∷◌, length};
ghost use Rattle.lg_calls.specs.Raising.{goes_to, goes_on, is_raised, raised};
ghost use Rattle.lg_calls.specs.Tasks.{have_distinct_ids};
ghost use Rattle.lg_plain.specs.Index.{HasRoom, IsIndexOf};
ghost use Rattle.lg_plain.specs.Walking.{IsFresh, Marks, IsMarkedBy, leads_at};

use crate::index::Index;
use crate::walk::Walk;
use lg_base::{NoMemory, TaskId};
use lg_calls::TaskRec;
use std::alloc::Global;

#[cfg(test)]
mod tests;

/// Raises what the task of an id waits for to a priority: a dependency of lower priority gets it, and so on through
/// dependencies of lower priority alone. Where no task has the id nothing happens. All memory is taken before the first
/// change: a mark and two places for each task. A refusal leaves the tasks as they were.
pub fn raise(
    tasks: &mut [TaskRec],
    alloc: Global,
    id: &TaskId,
    priority: i64,
) -> Result<(), NoMemory>
    requires { IsTrue (have_distinct_ids tasks.old) }
    ensures ok { OnOk result (tasks.new ≡ raised priority id.now tasks.old) }
    ensures err { OnErr result (tasks.new ≡ tasks.old) }
{
    let walk = Walk::new(alloc, tasks.len())?;
    let index = Index::new(alloc, tasks.len())?;
    raise_along(tasks, walk, index, id, priority);
    Ok(())
}

/// The same with memory that was taken before, for a step that has changed something already when it raises.
pub(crate) fn raise_along(
    tasks: &mut [TaskRec],
    mut walk: Walk,
    mut index: Index,
    id: &TaskId,
    priority: i64,
)
    requires distinct { IsTrue (have_distinct_ids tasks.old) }
    requires fresh { IsFresh (length tasks.old) walk }
    requires room { HasRoom (length tasks.old) index }
    ensures { tasks.new ≡ raised priority id.now tasks.old }
{
    index.fill(tasks);
    mark_raised(tasks, &index, &mut walk, id, priority);
    for (place, task) in tasks.iter_mut().enumerate() {
        if walk.marks[place] {
            task.priority = priority;
        }
    }
}

// Marks each task that is raised.
fn mark_raised(tasks: &[TaskRec], index: &Index, walk: &mut Walk, id: &TaskId, priority: i64)
    requires index { IsIndexOf tasks.now index.now }
    requires distinct { IsTrue (have_distinct_ids tasks.now) }
    requires fresh { IsFresh (length tasks.now) walk.old }
    ensures marked { IsMarkedBy tasks.now (is_raised priority id.now tasks.now) walk.new }
    ensures count { length walk.new.marks.items ≡ length tasks.now }
{
    if let Some(root) = index.place_of(tasks, id) {
        walk_from(tasks, index, walk, root, priority);
    }
}

// Marks each task that the priority goes on to from that of a place.
fn walk_from(tasks: &[TaskRec], index: &Index, walk: &mut Walk, root: usize, priority: i64)
    requires index { IsIndexOf tasks.now index.now }
    requires distinct { IsTrue (have_distinct_ids tasks.now) }
    requires fresh { IsFresh (length tasks.now) walk.old }
    requires known { root < length tasks.now }
    ensures marked { IsMarkedBy tasks.now (leads_at priority tasks.now root) walk.new }
    ensures count { length walk.new.marks.items ≡ length tasks.now }
{
    walk.begin(root);
    while let Some(place) = walk.take() {
        let task = &tasks[place];
        spread(tasks, index, walk, task, priority);
    }
}

// Marks each task that the priority goes on to from a task at once.
fn spread(tasks: &[TaskRec], index: &Index, walk: &mut Walk, task: &TaskRec, priority: i64)
    requires index { IsIndexOf tasks.now index.now }
    requires distinct { IsTrue (have_distinct_ids tasks.now) }
    requires count { length walk.old.marks.items ≡ length tasks.now }
    ensures { Marks tasks.now (goes_on priority task.now) walk.old walk.new }
{
    for dep in task.deps.as_slice() {
        reach(tasks, index, walk, dep, priority);
    }
}

// Marks the task of an id, where its priority is lower.
fn reach(tasks: &[TaskRec], index: &Index, walk: &mut Walk, id: &TaskId, priority: i64)
    requires index { IsIndexOf tasks.now index.now }
    requires distinct { IsTrue (have_distinct_ids tasks.now) }
    requires count { length walk.old.marks.items ≡ length tasks.now }
    ensures { Marks tasks.now (goes_to priority (id.now ∷ [])) walk.old walk.new }
{
    if let Some(place) = index.place_of(tasks, id) {
        let task = &tasks[place];
        if is_below(task, priority) && !walk.marks[place] {
            walk.mark(place);
        }
    }
}

// Whether the priority of a task is lower.
fn is_below(task: &TaskRec, priority: i64) -> bool
    ensures { result ≡ int_lt task.now.priority priority }
{
    task.priority < priority
}
