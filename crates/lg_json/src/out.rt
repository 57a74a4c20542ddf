ghost use Rattle.std.specs.Prelude.{◌≡◌, length, IsErr};
ghost use Rattle.lg_io.specs.Cause.{HasCause};
ghost use Rattle.lg_io.specs.Sink.{WritesAll};
ghost use Rattle.lg_json.specs.Capped.{capped};
ghost use Rattle.lg_json.specs.Text.{text_of, list_text, object_text, member_text};
ghost use Rattle.lg_json.specs.Tree.{tree_of, trees_view, members_view};
ghost use Rattle.lg_io.specs.Writes.{Writes};

use crate::escapes::{emit_quoted, quoted_length};
use lg_base::{Failed, Name, Text};
use lg_io::{Sink, write_all};

/// The tree of a reply. Whoever makes an object gives each name once, in the order of their bytes: the text has the
/// members in the order in which they stand.
#[derive(Debug, Drop)]
pub enum Out {
    Null,
    Truth(bool),
    Int(i64),
    Str(Text),
    List(Vec<Out>),
    Object(Vec<(Name, Out)>),
}

/// The number of bytes of the tree's compact text, or 2^64 - 1 where it is longer. It takes no memory.
#[cycle(length)]
pub fn length(tree: &Out) -> u64
    ensures { result ≡ capped (length (text_of (tree_of tree.now))) }
{
    match tree {
        Out::Null => 4,
        Out::Truth(true) => 4,
        Out::Truth(false) => 5,
        Out::Int(number) => itoa::Buffer::new().format(*number).len() as u64,
        Out::Str(text) => quoted_length(text.as_str()),
        Out::List(items) => list_length(items),
        Out::Object(members) => object_length(members),
    }
}

#[cycle(length)]
fn list_length(items: &[Out]) -> u64
    ensures { result ≡ capped (length (list_text (trees_view items.now))) }
{
    // The two brackets.
    let mut total: u64 = 2;
    let mut separator = 0;
    for item in items {
        total = total.saturating_add(separator).saturating_add(length(item));
        separator = 1;
    }
    total
}

#[cycle(length)]
fn object_length(members: &[(Name, Out)]) -> u64
    ensures { result ≡ capped (length (object_text (members_view members.now))) }
{
    // The two braces.
    let mut total: u64 = 2;
    let mut separator = 0;
    for (name, tree) in members {
        total = total
            .saturating_add(separator)
            .saturating_add(quoted_length(name.as_str()))
            .saturating_add(1)
            .saturating_add(length(tree));
        separator = 1;
    }
    total
}

/// Writes the tree's compact text, or a front of it where a write fails. It takes no memory.
#[cycle(emit)]
pub fn emit<S: Sink>(tree: &Out, sink: &mut S) -> Result<(), Failed>
    ensures told { WritesAll (S.taken sink.old) (S.taken sink.new) (text_of (tree_of tree.now)) result }
    ensures cause { HasCause (S.faults sink.old) (S.faults sink.new) (IsErr result) }
    ensures rest { S.rest sink.new ≡ S.rest sink.old }
{
    match tree {
        Out::Null => write_all(sink, b"null"),
        Out::Truth(true) => write_all(sink, b"true"),
        Out::Truth(false) => write_all(sink, b"false"),
        Out::Int(number) => write_all(sink, itoa::Buffer::new().format(*number).as_bytes()),
        Out::Str(text) => emit_quoted(text.as_str(), sink),
        Out::List(items) => emit_list(items, sink),
        Out::Object(members) => emit_object(members, sink),
    }
}

#[cycle(emit)]
fn emit_list<S: Sink>(items: &[Out], sink: &mut S) -> Result<(), Failed>
    ensures { Writes S.taken S.faults S.rest sink.old sink.new (list_text (trees_view items.now)) result }
{
    write_all(sink, b"[")?;
    let mut separator: &[u8] = b"";
    for item in items {
        write_all(sink, separator)?;
        emit(item, sink)?;
        separator = b",";
    }
    write_all(sink, b"]")
}

#[cycle(emit)]
fn emit_object<S: Sink>(members: &[(Name, Out)], sink: &mut S) -> Result<(), Failed>
    ensures { Writes S.taken S.faults S.rest sink.old sink.new (object_text (members_view members.now)) result }
{
    write_all(sink, b"{")?;
    let mut separator: &[u8] = b"";
    for (name, tree) in members {
        write_all(sink, separator)?;
        emit_member(name, tree, sink)?;
        separator = b",";
    }
    write_all(sink, b"}")
}

#[cycle(emit)]
fn emit_member<S: Sink>(name: &Name, tree: &Out, sink: &mut S) -> Result<(), Failed>
    ensures { Writes S.taken S.faults S.rest sink.old sink.new (member_text name.now (tree_of tree.now)) result }
{
    emit_quoted(name.as_str(), sink)?;
    write_all(sink, b":")?;
    emit(tree, sink)
}
