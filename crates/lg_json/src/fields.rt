ghost use Rattle.std.specs.Prelude.{◌≡◌, ◌≢◌, ℕ, List, Some, None, MatchResult, OnOk, OnErr, IfOk, IfSome, IfNone, option_map, codes};
ghost use Rattle.std.specs.Ordering.{nat_cmp};
ghost use Rattle.std.specs.declared.cmp.Ordering.TheVariants.{Less};
ghost use Rattle.std.specs.Cmp.Lexicographic.{slice_cmp};
ghost use Rattle.serde_json.specs.Data.{member, no_members};
ghost use Rattle.serde_json.specs.Find.{as_object, get_member};
ghost use Rattle.serde_json.specs.View.{view};
ghost use Rattle.lg_base.specs.Names.{AreInOrder};
ghost use Rattle.lg_json.specs.declared.fields.TakeFault.TheVariants.{NoMemory};
ghost use Rattle.lg_json.specs.Fields.{fields_view, fault_text, value_in, text_in, truth_in, int_in, texts_in, pairs_in, amounts_in, items_of, Gives, IsTakenOut};

use crate::lists::{
    into_amounts, into_pairs, into_texts, room_for_amounts, room_for_pairs, room_for_texts,
};
use crate::values::{int_of, into_text, present, truth_of};
use lg_base::{Amounts, Name, Text};
use serde_json::{Map, Value};
use std::alloc::{AllocError, Global};
use std::error::Error;
use std::fmt;

/// A value is of another kind than was asked for.
#[derive(Clone, Copy, Debug, PartialEq, Eq, Hash)]
pub struct WrongKind;

impl fmt::Display for WrongKind {
    ghost output = { λ _. Some (codes "a value of another kind") };

    fn fmt<W: fmt::Write>(&self, f: &mut fmt::Formatter<W>) -> fmt::Result {
        f.write_str("a value of another kind")
    }
}

impl Error for WrongKind {}

/// Why a field was not taken.
#[derive(Clone, Copy, Debug, PartialEq, Eq, Hash)]
pub enum TakeFault {
    /// The field is of another kind. A number with a fraction or an exponent, or past 64 bits, is no whole number.
    WrongKind,
    /// The whole number is outside -2^63 to 2^63 - 1.
    OutOfRange,
    NoMemory,
}

impl fmt::Display for TakeFault {
    ghost output = { λ fault. Some (fault_text fault) };

    fn fmt<W: fmt::Write>(&self, f: &mut fmt::Formatter<W>) -> fmt::Result {
        f.write_str(match self {
            TakeFault::WrongKind => "a field of another kind",
            TakeFault::OutOfRange => "a number out of range",
            TakeFault::NoMemory => "no memory",
        })
    }
}

impl Error for TakeFault {}

impl From<AllocError> for TakeFault {
    ghost from_gives = { λ _ fault. fault ≡ NoMemory };

    fn from(_: AllocError) -> TakeFault {
        TakeFault::NoMemory
    }
}

/// The fields of a JSON object, to be taken out one by one. A field that is null counts as absent. Each `take_` call
/// that answers a value, or that there is none, leaves the object without the field; after a refusal it is as before.
#[derive(Drop)]
pub struct Fields {
    members: Map<String, Value>,
}

impl Fields {
    /// The fields of an object. It is refused exactly where the value is none. It takes no memory.
    pub fn from_value(value: Value) -> Result<Fields, WrongKind>
        ensures { MatchResult result (λ fields. as_object (view value) ≡ Some (fields_view fields)) (λ _. as_object (view value) ≡ None) }
    {
        match value {
            Value::Object(members) => Ok(Fields { members }),
            _ => Err(WrongKind),
        }
    }

    /// Takes out a text. It takes no memory. `WrongKind` where the field is no text.
    pub fn take_text(&mut self, name: &str) -> Result<Option<Text>, TakeFault>
        ensures answer { result ≡ text_in (get_member name.now (fields_view self.old)) }
        ensures ok { OnOk result (IsTakenOut name.now (fields_view self.old) (fields_view self.new)) }
        ensures err { OnErr result (fields_view self.new ≡ fields_view self.old) }
    {
        if self.value(name).is_some_and(|value| !value.is_string()) {
            return Err(TakeFault::WrongKind);
        }
        Ok(self.remove(name).and_then(into_text))
    }

    /// Takes out a truth value. It takes no memory. `WrongKind` where the field is none.
    pub fn take_truth(&mut self, name: &str) -> Result<Option<bool>, TakeFault>
        ensures answer { result ≡ truth_in (get_member name.now (fields_view self.old)) }
        ensures ok { OnOk result (IsTakenOut name.now (fields_view self.old) (fields_view self.new)) }
        ensures err { OnErr result (fields_view self.new ≡ fields_view self.old) }
    {
        let truth = match self.value(name) {
            Some(value) => Some(truth_of(value)?),
            None => None,
        };
        self.remove(name);
        Ok(truth)
    }

    /// Takes out a whole number from -2^63 to 2^63 - 1. It takes no memory. `OutOfRange` where it is 2^63 or more,
    /// `WrongKind` where the field is no whole number.
    pub fn take_int(&mut self, name: &str) -> Result<Option<i64>, TakeFault>
        ensures answer { result ≡ int_in (get_member name.now (fields_view self.old)) }
        ensures ok { OnOk result (IsTakenOut name.now (fields_view self.old) (fields_view self.new)) }
        ensures err { OnErr result (fields_view self.new ≡ fields_view self.old) }
    {
        let number = match self.value(name) {
            Some(value) => Some(int_of(value)?),
            None => None,
        };
        self.remove(name);
        Ok(number)
    }

    /// Takes out a list of texts. `WrongKind` where the field is no list, or an item of it is no text.
    pub fn take_texts(&mut self, alloc: Global, name: &str) -> Result<Option<Vec<Text>>, TakeFault>
        ensures answer { Gives (items_of result) (texts_in (get_member name.now (fields_view self.old))) }
        ensures ok { OnOk result (IsTakenOut name.now (fields_view self.old) (fields_view self.new)) }
        ensures err { OnErr result (fields_view self.new ≡ fields_view self.old) }
    {
        let room = match self.value(name) {
            Some(value) => Some(room_for_texts(alloc, value)?),
            None => None,
        };
        match (self.remove(name), room) {
            (Some(value), Some(room)) => Ok(Some(into_texts(value, room))),
            _ => Ok(None),
        }
    }

    /// Takes out an object of texts, in the order of the names' bytes. `WrongKind` where the field is no object, or a
    /// member of it is no text.
    pub fn take_pairs(
        &mut self,
        alloc: Global,
        name: &str,
    ) -> Result<Option<Vec<(Name, Text)>>, TakeFault>
        ensures answer { Gives (items_of result) (pairs_in (get_member name.now (fields_view self.old))) }
        ensures order { IfOk result (λ pairs. IfSome pairs (λ list. AreInOrder list.items)) }
        ensures ok { OnOk result (IsTakenOut name.now (fields_view self.old) (fields_view self.new)) }
        ensures err { OnErr result (fields_view self.new ≡ fields_view self.old) }
    {
        let room = match self.value(name) {
            Some(value) => Some(room_for_pairs(alloc, value)?),
            None => None,
        };
        match (self.remove(name), room) {
            (Some(value), Some(room)) => Ok(Some(into_pairs(value, room))),
            _ => Ok(None),
        }
    }

    /// Takes out an object of amounts from 0 to 2^32 - 1. `WrongKind` where the field is no object, or a member of it is
    /// no whole number; `OutOfRange` where one is below 0 or 2^32 or more. Of two such members the first counts, in the
    /// order of the names' bytes.
    pub fn take_amounts(&mut self, alloc: Global, name: &str) -> Result<Option<Amounts>, TakeFault>
        ensures answer { Gives result (amounts_in (get_member name.now (fields_view self.old))) }
        ensures ok { OnOk result (IsTakenOut name.now (fields_view self.old) (fields_view self.new)) }
        ensures err { OnErr result (fields_view self.new ≡ fields_view self.old) }
    {
        let room = match self.value(name) {
            Some(value) => Some(room_for_amounts(alloc, value)?),
            None => None,
        };
        match (self.remove(name), room) {
            (Some(value), Some(room)) => Ok(Some(into_amounts(value, room))),
            _ => Ok(None),
        }
    }

    /// Takes out a field of any kind. It takes no memory.
    pub fn take_value(&mut self, name: &str) -> Option<Value>
        ensures value { option_map view result ≡ value_in (get_member name.now (fields_view self.old)) }
        ensures taken { IsTakenOut name.now (fields_view self.old) (fields_view self.new) }
    {
        match self.remove(name) {
            Some(Value::Null) => None,
            value => value,
        }
    }

    /// Takes out the first field in the order of the names' bytes, null or not, with its name; none where none is left.
    /// It takes no memory.
    pub fn take_first(&mut self) -> Option<(Name, Value)>
        ensures first { IfSome result (λ first. get_member first.0 (fields_view self.old) ≡ Some (view first.1)) }
        ensures taken { IfSome result (λ first. IsTakenOut first.0 (fields_view self.old) (fields_view self.new)) }
        ensures members { IfSome result (λ first. fields_view self.old ≡ member first.0 (view first.1) (fields_view self.new)) }
        ensures least { IfSome result (λ first. (name : List ℕ) → get_member name (fields_view self.new) ≢ None → slice_cmp nat_cmp first.0 name ≡ Less) }
        ensures none { IfNone result ((fields_view self.old ≡ no_members) × (fields_view self.new ≡ no_members)) }
    {
        let (name, value) = self.members.pop_first()?;
        Some((Name::from(Text::from_string(name)), value))
    }

    // A field that isn't null.
    fn value(&self, name: &str) -> Option<&Value>
        ensures { option_map (λ v. view v.now) result ≡ value_in (get_member name.now (fields_view self.now)) }
    {
        present(self.get(name))
    }

    fn get(&self, name: &str) -> Option<&Value>
        ensures { option_map (λ v. view v.now) result ≡ get_member name.now (fields_view self.now) }
    {
        self.members.get(name)
    }

    fn remove(&mut self, name: &str) -> Option<Value>
        ensures value { option_map view result ≡ get_member name.now (fields_view self.old) }
        ensures taken { IsTakenOut name.now (fields_view self.old) (fields_view self.new) }
    {
        self.members.remove(name)
    }
}
