//! Lists and objects, read whole. Room is taken before anything is moved, so that a refusal leaves all as it was.
ghost use Rattle.std.specs.Prelude.{◌≡◌, Ok, string_bytes};
ghost use Rattle.serde_json.specs.View.{view, items_view, members_view};
ghost use Rattle.lg_base.specs.Names.{AreInOrder};
ghost use Rattle.lg_json.specs.Fields.{texts_of, pairs_of, entries_of, amounts_of, each_item, each_member, checked, HasRoomFor};
ghost use Rattle.lg_json.specs.Fields as spec;

use crate::TakeFault;
use crate::values::{amount_of, check_text, into_amount, into_text};
use lg_base::{Amounts, Name, Text};
use serde_json::{Map, Value};
use std::alloc::Global;

/// Room for the texts of a list.
pub(crate) fn room_for_texts(alloc: Global, value: &Value) -> Result<Vec<Text>, TakeFault>
    ensures { HasRoomFor result (texts_of (view value.now)) }
{
    let Value::Array(items) = value else {
        return Err(TakeFault::WrongKind);
    };
    check_texts(items)?;
    Ok(Vec::with_capacity(alloc, items.len())?)
}

fn check_texts(items: &[Value]) -> Result<(), TakeFault>
    ensures { result ≡ checked (each_item spec.text_of (items_view items.now)) }
{
    for item in items {
        check_text(item)?;
    }
    Ok(())
}

/// The texts of a list, moved into their room.
pub(crate) fn into_texts(value: Value, room: Vec<Text>) -> Vec<Text>
    requires { HasRoomFor (Ok room) (texts_of (view value)) }
    ensures { texts_of (view value) ≡ Ok result.items }
{
    match value {
        Value::Array(items) => move_texts(items, room),
        _ => room,
    }
}

fn move_texts(items: Vec<Value>, room: Vec<Text>) -> Vec<Text>
    requires { HasRoomFor (Ok room) (each_item spec.text_of (items_view items.items)) }
    ensures { each_item spec.text_of (items_view items.items) ≡ Ok result.items }
{
    let mut texts = room;
    for item in items {
        if let Some(text) = into_text(item) {
            texts.push_reserved(text);
        }
    }
    texts
}

/// Room for the members of an object of texts.
pub(crate) fn room_for_pairs(alloc: Global, value: &Value) -> Result<Vec<(Name, Text)>, TakeFault>
    ensures { HasRoomFor result (pairs_of (view value.now)) }
{
    let Value::Object(members) = value else {
        return Err(TakeFault::WrongKind);
    };
    check_pairs(members)?;
    Ok(Vec::with_capacity(alloc, members.len())?)
}

fn check_pairs(members: &Map<String, Value>) -> Result<(), TakeFault>
    ensures { result ≡ checked (each_member spec.text_of (members_view members.now.entries)) }
{
    for (_, value) in members {
        check_text(value)?;
    }
    Ok(())
}

/// The members of an object of texts, moved into their room.
pub(crate) fn into_pairs(value: Value, room: Vec<(Name, Text)>) -> Vec<(Name, Text)>
    requires { HasRoomFor (Ok room) (pairs_of (view value)) }
    ensures all { pairs_of (view value) ≡ Ok result.items }
    ensures order { AreInOrder result.items }
{
    match value {
        Value::Object(members) => move_pairs(members, room),
        _ => room,
    }
}

fn move_pairs(members: Map<String, Value>, room: Vec<(Name, Text)>) -> Vec<(Name, Text)>
    requires { HasRoomFor (Ok room) (each_member spec.text_of (members_view members.entries)) }
    ensures all { each_member spec.text_of (members_view members.entries) ≡ Ok result.items }
    ensures order { AreInOrder result.items }
{
    let mut pairs = room;
    for (name, value) in members {
        if let Some(text) = into_text(value) {
            pairs.push_reserved((name_of(name), text));
        }
    }
    pairs
}

/// Room for the members of an object of amounts.
pub(crate) fn room_for_amounts(alloc: Global, value: &Value) -> Result<Vec<(Name, u32)>, TakeFault>
    ensures { HasRoomFor result (entries_of (view value.now)) }
{
    let Value::Object(members) = value else {
        return Err(TakeFault::WrongKind);
    };
    check_amounts(members)?;
    Ok(Vec::with_capacity(alloc, members.len())?)
}

fn check_amounts(members: &Map<String, Value>) -> Result<(), TakeFault>
    ensures { result ≡ checked (each_member spec.amount_of (members_view members.now.entries)) }
{
    for (_, value) in members {
        amount_of(value)?;
    }
    Ok(())
}

/// The amounts of an object, with their names moved into their room.
pub(crate) fn into_amounts(value: Value, room: Vec<(Name, u32)>) -> Amounts
    requires { HasRoomFor (Ok room) (entries_of (view value)) }
    ensures { amounts_of (view value) ≡ Ok result }
{
    match value {
        Value::Object(members) => Amounts::from_sorted(move_amounts(members, room)),
        _ => Amounts::from_sorted(room),
    }
}

fn move_amounts(members: Map<String, Value>, room: Vec<(Name, u32)>) -> Vec<(Name, u32)>
    requires { HasRoomFor (Ok room) (each_member spec.amount_of (members_view members.entries)) }
    ensures all { each_member spec.amount_of (members_view members.entries) ≡ Ok result.items }
    ensures order { AreInOrder result.items }
{
    let mut amounts = room;
    for (name, value) in members {
        if let Some(amount) = into_amount(value) {
            amounts.push_reserved((name_of(name), amount));
        }
    }
    amounts
}

fn name_of(name: String) -> Name
    ensures { result ≡ string_bytes name }
{
    Name::from(Text::from_string(name))
}
