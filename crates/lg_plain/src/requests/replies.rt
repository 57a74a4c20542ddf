//! The replies that are objects.
ghost use Rattle.std.specs.Prelude.{◌≡◌, IfOk, codes};
ghost use Rattle.std.specs.Option.{option_map_or};
ghost use Rattle.lg_json.specs.Tree.{null, str, object, no_members, member, tree_of};
ghost use Rattle.lg_calls.specs.Methods.Ping.{no_messages};
ghost use Rattle.lg_calls.specs.Pausing.{yes_or_no};
ghost use Rattle.lg_calls.specs.Words.{status_word};

use lg_base::{Name, NoMemory, TaskId, Text};
use lg_calls::{Reply, Status};
use lg_json::Out;
use std::alloc::Global;

/// The answer to a question that is answered by yes or no.
pub(super) fn yes_or_no(alloc: Global, name: &str, answer: bool) -> Result<Reply, NoMemory>
    ensures { IfOk result (λ reply. tree_of reply.0 ≡ yes_or_no name.now answer) }
{
    let mut members = Vec::new(alloc);
    members.push((named(alloc, name)?, Out::Truth(answer)))?;
    Ok(Reply(Out::Object(members)))
}

/// No message for a worker.
pub(super) fn no_messages(alloc: Global) -> Result<Reply, NoMemory>
    ensures { IfOk result (λ reply. tree_of reply.0 ≡ no_messages) }
{
    let mut members = Vec::new(alloc);
    members.push((named(alloc, "rpc_messages")?, Out::List(Vec::new(alloc))))?;
    Ok(Reply(Out::Object(members)))
}

/// The status of a task, null where it isn't known, and its id.
pub(super) fn settled(alloc: Global, id: &TaskId, status: Option<Status>) -> Result<Reply, NoMemory>
    ensures { IfOk result (λ reply. tree_of reply.0 ≡ object (member (codes "status") (option_map_or (λ s. str (status_word s)) status null)
        (member (codes "task_id") (str id.now) no_members))) }
{
    let mut members = Vec::new(alloc);
    members.push((named(alloc, "status")?, status_shown(alloc, status)?))?;
    let id = Text::copied(alloc, id.as_str())?;
    members.push((named(alloc, "task_id")?, Out::Str(id)))?;
    Ok(Reply(Out::Object(members)))
}

fn status_shown(alloc: Global, status: Option<Status>) -> Result<Out, NoMemory>
    ensures { IfOk result (λ out. tree_of out ≡ option_map_or (λ s. str (status_word s)) status null) }
{
    match status {
        None => Ok(Out::Null),
        Some(status) => Ok(Out::Str(Text::copied(alloc, status.word())?)),
    }
}

/// A name of its own.
pub(super) fn named(alloc: Global, name: &str) -> Result<Name, NoMemory>
    ensures { IfOk result (λ made. made ≡ name.now) }
{
    Ok(Name::from(Text::copied(alloc, name)?))
}
