//! What `add_task` says of a task itself.
ghost use Rattle.std.specs.Prelude.{◌≡◌, if◌then◌else◌, OnOk, IfOk};
ghost use Rattle.std.specs.Option.{option_or};
ghost use Rattle.lg_calls.specs.AddTask.Describing.{batch_meant, filled, filled_list, replaced, replaces_url, told};

use crate::rules::is_status;
use lg_base::{Name, NoMemory, Seq, Text};
use lg_calls::{AddTask, Status, TaskRec};

/// What is empty or absent of the task's family, module and parameters is filled.
pub(crate) fn fill(task: &mut TaskRec, ask: &AddTask) -> Result<(), NoMemory>
    ensures { OnOk result (task.new ≡ filled ask.now task.old) }
{
    fill_name(&mut task.family, &ask.family)?;
    fill_text(&mut task.module, &ask.module)?;
    fill_pairs(&mut task.params, &ask.params)
}

/// The fields that a call replaces.
pub(crate) fn replace(task: &mut TaskRec, ask: &AddTask) -> Result<(), NoMemory>
    ensures { OnOk result (task.new ≡ replaced ask.now task.old) }
{
    tell(task, ask, replaces_url(ask, task))?;
    task.accepts_messages = ask.accepts_messages;
    task.batchable = ask.batchable.unwrap_or(task.batchable);
    task.remove = None;
    Ok(())
}

/// Whether the tracking URL is replaced: one is given, or the task isn't RUNNING.
pub(crate) fn replaces_url(ask: &AddTask, task: &TaskRec) -> bool
    ensures { result ≡ replaces_url ask.now task.now }
{
    ask.tracking_url.is_some() || !is_status(Status::Running, task.status)
}

/// What is told of a task's work: where it can be looked at, where that is replaced, and why it failed, where that is given.
pub(crate) fn tell(task: &mut TaskRec, ask: &AddTask, replaces: bool) -> Result<(), NoMemory>
    ensures { OnOk result (task.new ≡ told ask.now replaces task.old) }
{
    tell_url(task, ask, replaces)?;
    tell_expl(task, ask)
}

fn tell_url(task: &mut TaskRec, ask: &AddTask, replaces: bool) -> Result<(), NoMemory>
    ensures { OnOk result (task.new ≡ record task.old { tracking_url = if replaces then ask.now.tracking_url else task.old.tracking_url }) }
{
    if replaces {
        task.tracking_url = ask.tracking_url.clone()?;
    }
    Ok(())
}

fn tell_expl(task: &mut TaskRec, ask: &AddTask) -> Result<(), NoMemory>
    ensures { OnOk result (task.new ≡ record task.old { expl = option_or ask.now.expl task.old.expl }) }
{
    if let Some(expl) = &ask.expl {
        task.expl = Some(expl.clone()?);
    }
    Ok(())
}

/// The batch that a call is about: the one that it gives, else the task's own.
pub(crate) fn batch_meant(ask: &AddTask, task: &TaskRec) -> Result<Option<Text>, NoMemory>
    ensures { IfOk result (λ batch. batch ≡ batch_meant ask.now task.now) }
{
    match &ask.batch_id {
        Some(batch) => Ok(Some(batch.clone()?)),
        None => Ok(task.batch.clone()?),
    }
}

// A name that is empty becomes the one that is given.
fn fill_name(name: &mut Name, given: &Name) -> Result<(), NoMemory>
    ensures { OnOk result (name.new ≡ filled_list name.old given.now) }
{
    if name.bytes().is_empty() {
        *name = given.clone()?;
    }
    Ok(())
}

// A text that is absent becomes the one that is given.
fn fill_text(text: &mut Option<Text>, given: &Option<Text>) -> Result<(), NoMemory>
    ensures { OnOk result (text.new ≡ option_or text.old given.now) }
{
    if text.is_none() {
        *text = given.clone()?;
    }
    Ok(())
}

// Pairs of which there are none become those that are given.
fn fill_pairs(pairs: &mut Seq<(Name, Text)>, given: &Seq<(Name, Text)>) -> Result<(), NoMemory>
    ensures { OnOk result (pairs.new ≡ filled_list pairs.old given.now) }
{
    if pairs.is_empty() {
        *pairs = given.clone()?;
    }
    Ok(())
}
