//! What a worker tells of itself, read of a value.
ghost use Rattle.std.specs.Prelude.{◌≡◌, option_map, string_bytes};
ghost use Rattle.serde_json.specs.View.{view, items_view, members_view};
ghost use Rattle.lg_json.specs.Fields.{each_item, each_member, optional};
ghost use Rattle.lg_calls.specs.Infos.{infos_of, named_info, pair_of, told, two_in, Meets};

use crate::info::Info;
use lg_base::{Name, Seq, Text};
use lg_json::{TakeFault, int_of};
use serde_json::{Map, Value};
use std::alloc::Global;

/// What is told by a value that may be absent: an object, in the order of its names' bytes, or a list of pairs in its order.
/// `WrongKind` where it is neither, a pair isn't a list of exactly two with a text first, or a list, an object or a number
/// with a fraction or exponent is told; `OutOfRange` where a whole number outside 64 bits is. The first fault counts.
pub(crate) fn infos_in(
    alloc: Global,
    value: Option<Value>,
) -> Result<Option<Seq<(Name, Info)>>, TakeFault>
    ensures { Meets result (optional infos_of (option_map view value)) }
{
    match value {
        None => Ok(None),
        Some(value) => Ok(Some(infos_of(alloc, value)?)),
    }
}

fn infos_of(alloc: Global, value: Value) -> Result<Seq<(Name, Info)>, TakeFault>
    ensures { Meets result (infos_of (view value)) }
{
    match value {
        Value::Object(members) => members_told(alloc, members),
        Value::Array(items) => items_told(alloc, items),
        _ => Err(TakeFault::WrongKind),
    }
}

fn members_told(alloc: Global, members: Map<String, Value>) -> Result<Seq<(Name, Info)>, TakeFault>
    ensures { Meets result (each_member told (members_view members.entries)) }
{
    let mut infos = Seq::new(alloc);
    for (name, value) in members {
        let pair = (name_of(name), told(value)?);
        infos.push(pair).map_err(|_| TakeFault::NoMemory)?;
    }
    Ok(infos)
}

fn items_told(alloc: Global, items: Vec<Value>) -> Result<Seq<(Name, Info)>, TakeFault>
    ensures { Meets result (each_item pair_of (items_view items.items)) }
{
    let mut infos = Seq::new(alloc);
    for item in items {
        let pair = pair_of(item)?;
        infos.push(pair).map_err(|_| TakeFault::NoMemory)?;
    }
    Ok(infos)
}

fn pair_of(value: Value) -> Result<(Name, Info), TakeFault>
    ensures { result ≡ pair_of (view value) }
{
    let Value::Array(items) = value else {
        return Err(TakeFault::WrongKind);
    };
    match two_in(items) {
        Some((name, value)) => named_info(name, value),
        None => Err(TakeFault::WrongKind),
    }
}

fn two_in(items: Vec<Value>) -> Option<(Value, Value)>
    ensures { option_map (λ pair. (view pair.0, view pair.1)) result ≡ two_in (items_view items.items) }
{
    if items.len() != 2 {
        return None;
    }
    let mut items = items;
    let second = items.pop()?;
    let first = items.pop()?;
    Some((first, second))
}

fn named_info(name: Value, value: Value) -> Result<(Name, Info), TakeFault>
    ensures { result ≡ named_info (view name, view value) }
{
    match name {
        Value::String(name) => {
            let info = told(value)?;
            Ok((name_of(name), info))
        }
        _ => Err(TakeFault::WrongKind),
    }
}

fn told(value: Value) -> Result<Info, TakeFault>
    ensures { result ≡ told (view value) }
{
    match value {
        Value::Null => Ok(Info::Null),
        Value::Bool(truth) => Ok(Info::Truth(truth)),
        Value::String(text) => Ok(Info::Text(Text::from_string(text))),
        value => Ok(Info::Number(int_of(&value)?)),
    }
}

fn name_of(name: String) -> Name
    ensures { result ≡ string_bytes name }
{
    Name::from(Text::from_string(name))
}
