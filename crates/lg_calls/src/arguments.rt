//! The arguments of a call, read one after another out of the fields of its payload.
ghost use Rattle.std.specs.Prelude.{◌≡◌, IfOk, IfSome, IfNone, option_map};
ghost use Rattle.serde_json.specs.Data.{member, no_members};
ghost use Rattle.serde_json.specs.Find.{get_member};
ghost use Rattle.serde_json.specs.View.{view};
ghost use Rattle.lg_base.specs.Names.{AreInOrder};
ghost use Rattle.lg_json.specs.Fields.{fields_view, text_in, truth_in, int_in, texts_in, pairs_in, amounts_in, items_of, value_in, IsTakenOut};
ghost use Rattle.lg_calls.specs.Reading.{field, needed, left_in, present_as, taken_as, Reads};
ghost use Rattle.lg_calls.specs.declared.refusal.Refusal.TheVariants.{OutOfRange};
ghost use Rattle.lg_calls.specs.declared.refusal.PayloadFault.TheVariants.{Refused};

use crate::refusal::{ArgumentName, PayloadFault, Refusal};
use lg_base::{Amounts, Name, NoMemory, Seq, TaskId, Text};
use lg_json::{Fields, TakeFault};
use serde_json::Value;
use std::alloc::Global;

/// The arguments that aren't read yet. Each call that reads one takes its field out; a field that is null counts as absent.
#[derive(Drop)]
pub(crate) struct Arguments {
    alloc: Global,
    fields: Fields,
}

impl Arguments {
    /// The arguments of a payload.
    pub(crate) fn new(alloc: Global, fields: Fields) -> Arguments
        ensures { left_in result ≡ fields_view fields }
    {
        Arguments { alloc, fields }
    }

    /// A text that may be absent.
    pub(crate) fn text(&mut self, name: &'static str) -> Result<Option<Text>, PayloadFault>
        ensures { Reads (field text_in name.now) self.old self.new result }
    {
        taken(name, self.fields.take_text(name))
    }

    /// A text that has to be there.
    pub(crate) fn needed_text(&mut self, name: &'static str) -> Result<Text, PayloadFault>
        ensures { Reads (needed text_in name.now) self.old self.new result }
    {
        present(name, self.text(name)?)
    }

    /// A truth value that may be absent.
    pub(crate) fn truth(&mut self, name: &'static str) -> Result<Option<bool>, PayloadFault>
        ensures { Reads (field truth_in name.now) self.old self.new result }
    {
        taken(name, self.fields.take_truth(name))
    }

    /// A whole number of 64 bits that may be absent.
    pub(crate) fn int(&mut self, name: &'static str) -> Result<Option<i64>, PayloadFault>
        ensures { Reads (field int_in name.now) self.old self.new result }
    {
        taken(name, self.fields.take_int(name))
    }

    /// A whole number of 64 bits that has to be there.
    pub(crate) fn needed_int(&mut self, name: &'static str) -> Result<i64, PayloadFault>
        ensures { Reads (needed int_in name.now) self.old self.new result }
    {
        present(name, self.int(name)?)
    }

    /// A list of texts that may be absent.
    pub(crate) fn texts(&mut self, name: &'static str) -> Result<Option<Seq<Text>>, PayloadFault>
        ensures { Reads (field texts_in name.now) self.old self.new result }
    {
        listed(name, self.fields.take_texts(self.alloc, name))
    }

    /// A list of texts that has to be there.
    pub(crate) fn needed_texts(&mut self, name: &'static str) -> Result<Seq<Text>, PayloadFault>
        ensures { Reads (needed texts_in name.now) self.old self.new result }
    {
        present(name, self.texts(name)?)
    }

    /// A list of the ids of tasks that may be absent.
    pub(crate) fn ids(&mut self, name: &'static str) -> Result<Option<Seq<TaskId>>, PayloadFault>
        ensures { Reads (field texts_in name.now) self.old self.new result }
    {
        let Some(texts) = self.texts(name)? else {
            return Ok(None);
        };
        Ok(Some(ids_of(self.alloc, texts)?))
    }

    /// A list of names that has to be there.
    pub(crate) fn needed_names(&mut self, name: &'static str) -> Result<Seq<Name>, PayloadFault>
        ensures { Reads (needed texts_in name.now) self.old self.new result }
    {
        let texts = self.needed_texts(name)?;
        Ok(names_of(self.alloc, texts)?)
    }

    /// An object of texts that may be absent, in the order of the names' bytes.
    pub(crate) fn pairs(
        &mut self,
        name: &'static str,
    ) -> Result<Option<Seq<(Name, Text)>>, PayloadFault>
        ensures read { Reads (field pairs_in name.now) self.old self.new result }
        ensures order { IfOk result (λ pairs. IfSome pairs AreInOrder) }
    {
        listed(name, self.fields.take_pairs(self.alloc, name))
    }

    /// An object of amounts that may be absent.
    pub(crate) fn amounts(&mut self, name: &'static str) -> Result<Option<Amounts>, PayloadFault>
        ensures { Reads (field amounts_in name.now) self.old self.new result }
    {
        taken(name, self.fields.take_amounts(self.alloc, name))
    }

    /// An argument of any kind that may be absent.
    pub(crate) fn value(&mut self, name: &'static str) -> Option<Value>
        ensures value { option_map view result ≡ value_in (get_member name.now (left_in self.old)) }
        ensures taken { IsTakenOut name.now (left_in self.old) (left_in self.new) }
    {
        self.fields.take_value(name)
    }

    /// The first argument in the order of the names' bytes, null or not, with its name; none where none is left.
    pub(crate) fn first(&mut self) -> Option<(Name, Value)>
        ensures first { IfSome result (λ first. left_in self.old ≡ member first.0 (view first.1) (left_in self.new)) }
        ensures none { IfNone result ((left_in self.old ≡ no_members) × (left_in self.new ≡ no_members)) }
    {
        self.fields.take_first()
    }

    /// Where what is read takes its memory.
    pub(crate) fn alloc(&self) -> Global {
        self.alloc
    }
}

/// A field as it was taken, or why it wasn't, with its name.
pub(crate) fn taken<A>(name: &'static str, field: Result<A, TakeFault>) -> Result<A, PayloadFault>
    ensures { result ≡ taken_as name.now field }
{
    match field {
        Ok(value) => Ok(value),
        Err(TakeFault::WrongKind) => Err(PayloadFault::Refused(Refusal::WrongKind(
            ArgumentName::fixed(name),
        ))),
        Err(TakeFault::OutOfRange) => Err(PayloadFault::Refused(Refusal::OutOfRange(
            ArgumentName::fixed(name),
        ))),
        Err(TakeFault::NoMemory) => Err(PayloadFault::NoMemory),
    }
}

/// A list as it was taken, or why it wasn't, with its name.
fn listed<T>(
    name: &'static str,
    field: Result<Option<Vec<T>>, TakeFault>,
) -> Result<Option<Seq<T>>, PayloadFault>
    ensures { result ≡ taken_as name.now (items_of field) }
{
    let list = taken(name, field)?;
    Ok(list.map(Seq::from_vec))
}

/// The ids that texts spell, in their order.
fn ids_of(alloc: Global, texts: Seq<Text>) -> Result<Seq<TaskId>, NoMemory>
    ensures { IfOk result (λ ids. ids ≡ texts) }
{
    let ids = texts
        .into_vec()
        .into_iter()
        .map(TaskId::from)
        .collect(alloc)?;
    Ok(Seq::from_vec(ids))
}

/// The names that texts spell, in their order.
fn names_of(alloc: Global, texts: Seq<Text>) -> Result<Seq<Name>, NoMemory>
    ensures { IfOk result (λ names. names ≡ texts) }
{
    let names = texts.into_vec().into_iter().map(Name::from).collect(alloc)?;
    Ok(Seq::from_vec(names))
}

/// What has to be there.
pub(crate) fn present<A>(name: &'static str, field: Option<A>) -> Result<A, PayloadFault>
    ensures { result ≡ present_as name.now field }
{
    match field {
        Some(value) => Ok(value),
        None => Err(PayloadFault::Refused(Refusal::MissingArgument(ArgumentName::fixed(name)))),
    }
}

/// The refusal of an argument that isn't in its range.
pub(crate) fn out_of_range(name: &'static str) -> PayloadFault
    ensures { result ≡ Refused (OutOfRange name.now) }
{
    PayloadFault::Refused(Refusal::OutOfRange(ArgumentName::fixed(name)))
}
