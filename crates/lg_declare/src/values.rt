//! Values of TOML, read as the kinds that the keys of a declaration have.
ghost use Rattle.std.specs.Prelude.{◌≡◌, List, ℕ, IfOk, is_some, map};
ghost use Rattle.std.specs.List.{list_any};
ghost use Rattle.std.specs.Option.{option_copied};
ghost use Rattle.std.specs.Str.{bytes_eq};
ghost use Rattle.toml.specs.Data.{Data, as_str, as_bool, as_integer, as_array, as_table, get};
ghost use Rattle.toml.specs.View.{view, items_view, table_view};
ghost use Rattle.lg_declare.specs.Declaring.{Answers, ReadsEach, ReadsEachMember, list_in, seen};
ghost use Rattle.lg_declare.specs.Keys.{list_at, list_of, text_in};
ghost use Rattle.lg_declare.specs.Reading.{Read, ensured, right_kind, known_key, only_keys, each_item, each_member};

use crate::declare_fault::DeclareFault;
use lg_base::{Name, NoMemory, Text};
use std::alloc::Global;
use toml::{Table, Value};

/// A value of another kind or range at this key, where this doesn't hold.
pub(crate) fn ensured(alloc: Global, key: &str, holds: bool) -> Result<(), DeclareFault>
    ensures { Answers result (ensured key.now holds) }
{
    if holds {
        Ok(())
    } else {
        Err(DeclareFault::bad_value(alloc, key))
    }
}

pub(crate) fn text_at<'a>(
    alloc: Global,
    key: &str,
    value: &'a Value,
) -> Result<&'a str, DeclareFault>
    ensures { Answers (seen (λ text. text.now) result) (right_kind key.now (as_str (view value.entry.now))) }
{
    match value.as_str() {
        Some(text) => Ok(text),
        None => Err(DeclareFault::bad_value(alloc, key)),
    }
}

pub(crate) fn truth_at(alloc: Global, key: &str, value: &Value) -> Result<bool, DeclareFault>
    ensures { Answers result (right_kind key.now (as_bool (view value.now))) }
{
    match value.as_bool() {
        Some(truth) => Ok(truth),
        None => Err(DeclareFault::bad_value(alloc, key)),
    }
}

pub(crate) fn integer_at(alloc: Global, key: &str, value: &Value) -> Result<i64, DeclareFault>
    ensures { Answers result (right_kind key.now (as_integer (view value.now))) }
{
    match value.as_integer() {
        Some(number) => Ok(number),
        None => Err(DeclareFault::bad_value(alloc, key)),
    }
}

pub(crate) fn items_at<'a>(
    alloc: Global,
    key: &str,
    value: &'a Value,
) -> Result<&'a [Value], DeclareFault>
    ensures { Answers (seen (λ items. items_view items.now) result) (right_kind key.now (as_array (view value.entry.now))) }
{
    match value.as_array() {
        Some(items) => Ok(items),
        None => Err(DeclareFault::bad_value(alloc, key)),
    }
}

pub(crate) fn members_at<'a>(
    alloc: Global,
    key: &str,
    value: &'a Value,
) -> Result<&'a Table, DeclareFault>
    ensures { Answers (seen (λ table. table_view table.now) result) (right_kind key.now (as_table (view value.entry.now))) }
{
    match value.as_table() {
        Some(table) => Ok(table),
        None => Err(DeclareFault::bad_value(alloc, key)),
    }
}

/// There are no other keys.
pub(crate) fn only_keys(alloc: Global, known: &[&str], table: &Table) -> Result<(), DeclareFault>
    ensures { Answers result (only_keys (map (λ word. word.now) known.now) (table_view table.now)) }
{
    for (key, _) in table {
        known_key(alloc, known, key.as_str())?;
    }
    Ok(())
}

fn known_key(alloc: Global, known: &[&str], key: &str) -> Result<(), DeclareFault>
    ensures { Answers result (known_key (map (λ word. word.now) known.now) key.now) }
{
    if is_known(known, key) {
        Ok(())
    } else {
        Err(DeclareFault::unknown_key(alloc, key))
    }
}

fn is_known(known: &[&str], key: &str) -> bool
    ensures { result ≡ list_any (λ word. bytes_eq word.now key.now) known.now }
{
    known.iter().any(|word| *word == key)
}

/// The text at a key of a table, where one is there.
pub(crate) fn text_in<'a>(key: &str, table: &'a Value) -> Option<&'a str>
    ensures { option_copied result ≡ text_in key.now (view table.entry.now) }
{
    match table.get(key) {
        Some(value) => value.as_str(),
        None => None,
    }
}

/// The list at a key of a table; nothing where none is there.
pub(crate) fn list_at<'a>(key: &str, table: &'a Value) -> &'a [Value]
    ensures { map view result.now ≡ list_at key.now (view table.entry.now) }
{
    match table.get(key) {
        Some(value) => items_of(value),
        None => &[],
    }
}

fn items_of(value: &Value) -> &[Value]
    ensures { map view result.now ≡ list_of (as_array (view value.entry.now)) }
{
    match value.as_array() {
        Some(items) => items,
        None => &[],
    }
}

/// Whether there is such a key.
pub(crate) fn is_there(key: &str, table: &Value) -> bool
    ensures { result ≡ is_some (get key.now (view table.now)) }
{
    table.get(key).is_some()
}

pub(crate) fn name_of(alloc: Global, text: &str) -> Result<Name, NoMemory>
    ensures { IfOk result (λ name. name ≡ text.now) }
{
    Ok(Name::from(Text::copied(alloc, text)?))
}

/// Each item in its order, or the first fault.
pub(crate) fn each_item<A: Drop, F: Fn(&Value) -> Result<A, DeclareFault>>(
    alloc: Global,
    items: &[Value],
    read: F,
) -> Result<Vec<A>, DeclareFault>
    requires { F.IsAlwaysCallable read }
    ensures { (due : Data → Read A) → ReadsEach (F.post read) due → Answers (list_in result) (each_item due (items_view items.now)) }
{
    let mut all = Vec::new(alloc);
    for item in items {
        all.push(read(item)?)?;
    }
    Ok(all)
}

/// Each member in the order of the keys' bytes, or the first fault.
pub(crate) fn each_member<A: Drop, F: Fn(&str, &Value) -> Result<A, DeclareFault>>(
    alloc: Global,
    table: &Table,
    read: F,
) -> Result<Vec<A>, DeclareFault>
    requires { F.IsAlwaysCallable read }
    ensures { (due : List ℕ → Data → Read A) → ReadsEachMember (F.post read) due
        → Answers (list_in result) (each_member due (table_view table.now)) }
{
    let mut all = Vec::new(alloc);
    for (key, value) in table {
        all.push(read(key.as_str(), value)?)?;
    }
    Ok(all)
}
