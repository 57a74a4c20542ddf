//! The members of an object, read one after another.
ghost use Rattle.std.specs.Prelude.{◌≡◌, Some, None, MatchResult};
ghost use Rattle.serde_json.specs.Data.{member};
ghost use Rattle.serde_json.specs.Find.{as_object};
ghost use Rattle.serde_json.specs.View.{view};
ghost use Rattle.lg_json.specs.Fields.{fields_view};
ghost use Rattle.lg_snapshot.specs.Kinds.{each_member, pairs_in};
ghost use Rattle.lg_snapshot.specs.Reading.{Answers, Reads, Takes, entry, left_in};

use lg_base::{Name, NoMemory, Seq};
use lg_json::Fields;
use serde_json::Value;
use std::alloc::Global;

/// Why a value was not read.
#[derive(Clone, Copy, Debug, PartialEq, Eq)]
pub(crate) enum Unread {
    /// It is of another kind.
    Other,
    NoMemory,
}

impl From<NoMemory> for Unread {
    ghost use Rattle.lg_snapshot.specs.declared.entries.Unread.TheVariants.{NoMemory};

    ghost from_gives = { λ _ fault. fault ≡ NoMemory };

    fn from(_: NoMemory) -> Unread {
        Unread::NoMemory
    }
}

/// A value that is read from JSON.
pub(crate) trait Spelled {
    ghost use Rattle.std.specs.Prelude.{Option};
    ghost use Rattle.serde_json.specs.Data.{Data};
    ghost use Rattle.lg_snapshot.specs.Reading.{Answers};

    ghost kind: { Data → Option Self };

    /// Reads a value. `Other` where it is of another kind.
    fn read(alloc: Global, value: Value) -> Result<Self, Unread>
        ensures { Answers result (kind (view value)) };
}

/// The members of an object that aren't read yet, in the order of their names' bytes.
#[derive(Drop)]
pub(crate) struct Entries {
    alloc: Global,
    fields: Fields,
}

impl Entries {
    /// The members of an object; `Other` where the value is none. It takes no memory.
    pub(crate) fn of(alloc: Global, value: Value) -> Result<Entries, Unread>
        ensures { MatchResult result (λ entries. as_object (view value) ≡ Some (left_in entries)) (λ fault. (fault ≡ Unread.Other) × (as_object (view value) ≡ None)) }
    {
        match Fields::from_value(value) {
            Ok(fields) => Ok(Entries { alloc, fields }),
            Err(_) => Err(Unread::Other),
        }
    }

    /// Reads the first member, which has to have this name. Behind a refusal the member is gone.
    pub(crate) fn next<T: Spelled>(&mut self, name: &str) -> Result<T, Unread>
        ensures { Reads (entry name.now T.kind) self.old self.new result }
    {
        let value = self.value(name)?;
        T::read(self.alloc, value)
    }

    /// Reads the first member, which has to have this name, as an object of values by name.
    pub(crate) fn pairs<T: Spelled + Drop>(&mut self, name: &str) -> Result<Seq<(Name, T)>, Unread>
        ensures { Reads (entry name.now (pairs_in T.kind)) self.old self.new result }
    {
        let value = self.value(name)?;
        read_pairs(self.alloc, value)
    }

    // Takes out the first member, which has to have this name.
    fn value(&mut self, name: &str) -> Result<Value, Unread>
        ensures { Takes name.now self.old self.new result }
    {
        let Some((found, value)) = self.fields.take_first() else {
            return Err(Unread::Other);
        };
        if found.as_str() == name {
            Ok(value)
        } else {
            Err(Unread::Other)
        }
    }
}

/// Values by name, of an object.
pub(crate) fn read_pairs<T: Spelled + Drop>(
    alloc: Global,
    value: Value,
) -> Result<Seq<(Name, T)>, Unread>
    ensures { Answers result (pairs_in T.kind (view value)) }
{
    let entries = Entries::of(alloc, value)?;
    members(alloc, entries.fields)
}

fn members<T: Spelled + Drop>(alloc: Global, fields: Fields) -> Result<Seq<(Name, T)>, Unread>
    ensures { Answers result (each_member T.kind (fields_view fields)) }
{
    let mut left = fields;
    let mut pairs = Seq::new(alloc);
    while let Some((name, value)) = left.take_first() {
        pairs.push((name, T::read(alloc, value)?))?;
    }
    Ok(pairs)
}
