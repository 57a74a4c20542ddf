//! The record of a task.
ghost use Rattle.std.specs.Prelude.{◌≡◌, ◌++◌, IfOk, OnOk};
ghost use Rattle.std.specs.Option.{option_copied};
ghost use Rattle.lg_calls.specs.Valid.{IsValidTask};
ghost use Rattle.lg_json.specs.Tree.{tree_of};
ghost use Rattle.lg_views.specs.Fields.{fields_in};
ghost use Rattle.lg_views.specs.Listed.{last_moment};
ghost use Rattle.lg_calls.specs.Views.TaskRecord as spec;

use crate::builders::{Object, Shown};
use crate::leaves::ByName;
use crate::names::display_name;
use crate::statuses::{is_running, is_status};
use lg_base::{Amounts, NoMemory};
use lg_calls::{Status, TaskRec};
use lg_json::Out;
use std::alloc::Global;

/// What is shown of a task: an object of sixteen fields, and of one more where it is disabled. The task has to be one of a
/// state whose moments are below 2^62. Refused only where there is no memory.
pub fn task_record(alloc: Global, task: &TaskRec) -> Result<Out, NoMemory>
    requires { IsValidTask last_moment task.now }
    ensures { IfOk result (λ out. tree_of out ≡ spec.task_record task.now) }
{
    let mut object = Object::new(alloc);
    put_about(alloc, task, &mut object)?;
    put_enabling(task, &mut object)?;
    put_running(task, &mut object)?;
    Ok(object.into_out())
}

// What the task is.
fn put_about(alloc: Global, task: &TaskRec, object: &mut Object) -> Result<(), NoMemory>
    requires { IsValidTask last_moment task.now }
    ensures { OnOk result (fields_in object.new ≡ fields_in object.old ++ spec.about_fields task.now) }
{
    let shown_name = display_name(alloc, task)?;
    object.put("accepts_messages", &task.accepts_messages)?;
    object.put("display_name", &shown_name)?;
    object.put("last_updated", &task.updated)?;
    object.put("name", &task.family)?;
    object.put("params", &ByName(task.params.as_slice()))?;
    object.put("priority", &task.priority)?;
    object.put("progress_percentage", &task.progress)
}

// Whether it can be enabled again, where it is disabled.
fn put_enabling(task: &TaskRec, object: &mut Object) -> Result<(), NoMemory>
    ensures { OnOk result (fields_in object.new ≡ fields_in object.old ++ spec.enabling_fields task.now) }
{
    if is_status(Status::Disabled, task.status) {
        object.put("re_enable_able", &task.disabled_at.is_some())
    } else {
        Ok(())
    }
}

// How it runs.
fn put_running(task: &TaskRec, object: &mut Object) -> Result<(), NoMemory>
    requires { IsValidTask last_moment task.now }
    ensures { OnOk result (fields_in object.new ≡ fields_in object.old ++ spec.running_fields task.now) }
{
    object.put("resources", &task.resources)?;
    object.put("resources_running", &taken_by(task))?;
    object.put("start_time", &task.added)?;
    object.put("status", &task.status)?;
    object.put("status_message", &task.status_message)?;
    object.put("time_running", &task.time_running)?;
    object.put("tracking_url", &task.tracking_url)?;
    object.put("worker_running", &task.worker_running)?;
    object.put("workers", &task.workers)
}

// What it takes now.
fn taken_by(task: &TaskRec) -> Option<&Amounts>
    ensures { option_copied result ≡ spec.taken_by task.now }
{
    if is_running(task.status) {
        Some(&task.resources)
    } else {
        None
    }
}

impl Shown for TaskRec {
    ghost tree = { spec.task_record };

    ghost fits = { IsValidTask last_moment };

    fn show(&self, alloc: Global) -> Result<Out, NoMemory> {
        task_record(alloc, self)
    }
}
