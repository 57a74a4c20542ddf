//! The kinds of values that a snapshot has, read from JSON.
ghost use Rattle.serde_json.specs.Find.{as_bool, as_str};
ghost use Rattle.serde_json.specs.View.{items_view};
ghost use Rattle.lg_snapshot.specs.Kinds as spec;
ghost use Rattle.lg_snapshot.specs.Reading.{Answers};

use crate::entries::{Spelled, Unread, read_pairs};
use crate::order::rise;
use lg_base::{Amounts, Moment, Name, Seq, TaskId, Text, WorkerId};
use lg_calls::{Info, Status};
use serde_json::Value;
use std::alloc::Global;

impl Spelled for bool {
    ghost kind = { as_bool };

    fn read(_alloc: Global, value: Value) -> Result<bool, Unread> {
        value.as_bool().ok_or(Unread::Other)
    }
}

impl Spelled for u64 {
    ghost kind = { spec.number_in };

    fn read(_alloc: Global, value: Value) -> Result<u64, Unread> {
        value.as_u64().ok_or(Unread::Other)
    }
}

impl Spelled for u32 {
    ghost kind = { spec.amount_in };

    fn read(alloc: Global, value: Value) -> Result<u32, Unread> {
        u32::try_from(u64::read(alloc, value)?).map_err(|_| Unread::Other)
    }
}

impl Spelled for i64 {
    ghost kind = { spec.int_in };

    fn read(_alloc: Global, value: Value) -> Result<i64, Unread> {
        value.as_i64().ok_or(Unread::Other)
    }
}

impl Spelled for Moment {
    ghost kind = { spec.moment_in };

    fn read(alloc: Global, value: Value) -> Result<Moment, Unread> {
        Ok(Moment(u64::read(alloc, value)?))
    }
}

impl Spelled for Text {
    ghost kind = { as_str };

    fn read(_alloc: Global, value: Value) -> Result<Text, Unread> {
        match value {
            Value::String(text) => Ok(Text::from_string(text)),
            _ => Err(Unread::Other),
        }
    }
}

impl Spelled for Name {
    ghost kind = { as_str };

    fn read(alloc: Global, value: Value) -> Result<Name, Unread> {
        Ok(Name::from(Text::read(alloc, value)?))
    }
}

impl Spelled for TaskId {
    ghost kind = { as_str };

    fn read(alloc: Global, value: Value) -> Result<TaskId, Unread> {
        Ok(TaskId::from(Text::read(alloc, value)?))
    }
}

impl Spelled for WorkerId {
    ghost kind = { as_str };

    fn read(alloc: Global, value: Value) -> Result<WorkerId, Unread> {
        Ok(WorkerId::from(Text::read(alloc, value)?))
    }
}

impl Spelled for Status {
    ghost kind = { spec.status_in };

    fn read(_alloc: Global, value: Value) -> Result<Status, Unread> {
        match value.as_str() {
            Some(word) => Status::named(word).ok_or(Unread::Other),
            None => Err(Unread::Other),
        }
    }
}

impl Spelled for Info {
    ghost kind = { spec.info_in };

    fn read(_alloc: Global, value: Value) -> Result<Info, Unread> {
        match value {
            Value::Null => Ok(Info::Null),
            Value::Bool(truth) => Ok(Info::Truth(truth)),
            Value::Number(number) => match number.as_i64() {
                Some(number) => Ok(Info::Number(number)),
                None => Err(Unread::Other),
            },
            Value::String(text) => Ok(Info::Text(Text::from_string(text))),
            _ => Err(Unread::Other),
        }
    }
}

/// Null is an absent value.
impl<T: Spelled> Spelled for Option<T> {
    ghost kind = { spec.maybe_in T.kind };

    fn read(alloc: Global, value: Value) -> Result<Option<T>, Unread> {
        match value {
            Value::Null => Ok(None),
            value => Ok(Some(T::read(alloc, value)?)),
        }
    }
}

impl<T: Spelled + Drop> Spelled for Seq<T> {
    ghost kind = { spec.list_in T.kind };

    fn read(alloc: Global, value: Value) -> Result<Seq<T>, Unread> {
        match value {
            Value::Array(items) => read_items(alloc, items),
            _ => Err(Unread::Other),
        }
    }
}

fn read_items<T: Spelled + Drop>(alloc: Global, items: Vec<Value>) -> Result<Seq<T>, Unread>
    ensures { Answers result (spec.each_item T.kind (items_view items.items)) }
{
    let mut read = Seq::new(alloc);
    for item in items {
        read.push(T::read(alloc, item)?)?;
    }
    Ok(read)
}

impl Spelled for Amounts {
    ghost kind = { spec.amounts_in };

    fn read(alloc: Global, value: Value) -> Result<Amounts, Unread> {
        in_order(read_pairs(alloc, value)?)
    }
}

// The amounts of pairs, which have to stand in the order of their names' bytes.
fn in_order(pairs: Seq<(Name, u32)>) -> Result<Amounts, Unread>
    ensures { Answers result (spec.amounts_of pairs) }
{
    if rise(pairs.as_slice()) {
        Ok(Amounts::from_sorted(pairs.into_vec()))
    } else {
        Err(Unread::Other)
    }
}
