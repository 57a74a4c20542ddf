//! The parameters of a family.
ghost use Rattle.std.specs.Prelude.{◌≡◌, ◌≢◌, MatchOption, [], codes, false, true};
ghost use Rattle.std.specs.Map.{lookup};
ghost use Rattle.std.specs.Str.{bytes_eq};
ghost use Rattle.toml.specs.Data.{get};
ghost use Rattle.toml.specs.View.{view, items_view};
ghost use Rattle.lg_declare.specs.Declaring.{Answers, Faults, list_in};
ghost use Rattle.lg_declare.specs.Parameters.{is_choice, kind_words, batch_words, kind_of, kind_in, significant_in, new_choice, choice_of, choices_from, choices_of, no_choices, with_choices, is_joinable, joinable, batch_of, batch_in, default_of, default_in, early_default, late_default, word_in, parameter_in, parameter_of, parameters_of, parameters_in, needed_choices, first_of};
ghost use Rattle.lg_declare.specs.Kinds.{reads};
ghost use Rattle.lg_declare.specs.Reading.{ensured};
ghost use Rattle.lg_declare.specs.Template.{is_among};
ghost use Rattle.lg_declare.specs.declared.declare_fault.DeclareFault.TheVariants.{BadValue, NoMemory};

use crate::declare_fault::DeclareFault;
use crate::family::{Batch, Parameter};
use crate::values::{
    each_member, ensured, is_there, items_at, members_at, name_of, only_keys, text_at, truth_at,
};
use crate::words::{PARAMETER_KEYS, is_name};
use lg_base::{Seq, Text};
use lg_params::{Kind, ReadFault, TextList};
use std::alloc::Global;
use toml::Value;

/// The parameters that a family declares, in the order of their names' bytes.
pub(crate) fn parameters_in(alloc: Global, family: &Value) -> Result<Seq<Parameter>, DeclareFault>
    ensures { Answers result (parameters_in (view family.now)) }
{
    match family.get("params") {
        Some(value) => parameters_of(alloc, value),
        None => Ok(Seq::new(alloc)),
    }
}

fn parameters_of(alloc: Global, value: &Value) -> Result<Seq<Parameter>, DeclareFault>
    ensures { Answers result (parameters_of (view value.now)) }
{
    let members = members_at(alloc, "params", value)?;
    let all = each_member(
        alloc,
        members,
        |name, value| parameter_of(alloc, name, value),
    )?;
    Ok(Seq::from_vec(all))
}

fn parameter_of(alloc: Global, name: &str, value: &Value) -> Result<Parameter, DeclareFault>
    ensures { Answers result (parameter_of name.now (view value.now)) }
{
    ensured(alloc, name, is_name(name))?;
    let members = members_at(alloc, name, value)?;
    only_keys(alloc, &PARAMETER_KEYS, members)?;
    parameter_in(alloc, name, value)
}

/// The keys of a parameter in their order.
fn parameter_in(alloc: Global, name: &str, value: &Value) -> Result<Parameter, DeclareFault>
    ensures { Answers result (parameter_in name.now (view value.now)) }
{
    let kind = kind_in(alloc, value)?;
    let default = early_default(alloc, &kind, value)?;
    let significant = significant_in(alloc, value)?;
    let whole = with_choices(alloc, kind, value)?;
    let chosen = late_default(alloc, &whole, value)?;
    let batch = batch_in(alloc, &whole, value)?;
    let name = name_of(alloc, name)?;
    Ok(Parameter {
        name,
        kind: whole,
        default: first_of(default, chosen),
        significant,
        batch,
    })
}

fn first_of(first: Option<Text>, later: Option<Text>) -> Option<Text>
    ensures { result ≡ first_of first later }
{
    match first {
        Some(text) => Some(text),
        None => later,
    }
}

fn kind_in(alloc: Global, parameter: &Value) -> Result<Kind, DeclareFault>
    ensures { Answers result (kind_in (view parameter.now)) }
{
    match parameter.get("kind") {
        Some(value) => kind_of(alloc, value),
        None => Ok(Kind::Text),
    }
}

fn kind_of(alloc: Global, value: &Value) -> Result<Kind, DeclareFault>
    ensures { Answers result (kind_of (view value.now)) }
{
    let word = text_at(alloc, "kind", value)?;
    kind_meant(alloc, word)
}

fn kind_meant(alloc: Global, word: &str) -> Result<Kind, DeclareFault>
    ensures { Answers result (word_in kind_words word.now) }
{
    match kind_named(alloc, word) {
        Some(kind) => Ok(kind),
        None => Err(DeclareFault::unknown_kind(alloc, word)),
    }
}

/// The kind of a word; of a choice the choices come later.
fn kind_named(alloc: Global, word: &str) -> Option<Kind>
    ensures { result ≡ lookup (bytes_eq word.now) kind_words }
{
    match word {
        "text" => Some(Kind::Text),
        "int" => Some(Kind::Int),
        "bool" => Some(Kind::Truth),
        "date" => Some(Kind::Date),
        "date_hour" => Some(Kind::DateHour),
        "date_minute" => Some(Kind::DateMinute),
        "month" => Some(Kind::Month),
        "year" => Some(Kind::Year),
        "choice" => Some(Kind::Choice(TextList::from_vec(Vec::new(alloc)))),
        "list" => Some(Kind::Texts),
        _ => None,
    }
}

fn is_choice(kind: &Kind) -> bool
    ensures { result ≡ is_choice kind.now }
{
    matches!(kind, Kind::Choice(_))
}

/// The default, but that of a choice.
fn early_default(
    alloc: Global,
    kind: &Kind,
    parameter: &Value,
) -> Result<Option<Text>, DeclareFault>
    ensures { Answers result (early_default kind.now (view parameter.now)) }
{
    if is_choice(kind) {
        Ok(None)
    } else {
        default_in(alloc, kind, parameter)
    }
}

/// The default of a choice.
fn late_default(alloc: Global, kind: &Kind, parameter: &Value) -> Result<Option<Text>, DeclareFault>
    ensures { Answers result (late_default kind.now (view parameter.now)) }
{
    if is_choice(kind) {
        default_in(alloc, kind, parameter)
    } else {
        Ok(None)
    }
}

fn default_in(alloc: Global, kind: &Kind, parameter: &Value) -> Result<Option<Text>, DeclareFault>
    ensures { Answers result (default_in kind.now (view parameter.now)) }
{
    match parameter.get("default") {
        Some(value) => default_of(alloc, kind, value),
        None => Ok(None),
    }
}

fn default_of(alloc: Global, kind: &Kind, value: &Value) -> Result<Option<Text>, DeclareFault>
    ensures { Answers result (default_of kind.now (view value.now)) }
{
    let word = text_at(alloc, "default", value)?;
    let text = Text::copied(alloc, word)?;
    ensure_reads(alloc, kind, &text)?;
    Ok(Some(text))
}

fn ensure_reads(alloc: Global, kind: &Kind, text: &Text) -> Result<(), DeclareFault>
    ensures { Answers result (ensured (codes "default") (reads kind.now text.now)) }
{
    match fault_of(alloc, kind, text) {
        None => Ok(()),
        Some(fault) => Err(unread(alloc, fault)),
    }
}

/// Why the kind doesn't read the text, where it doesn't.
fn fault_of(alloc: Global, kind: &Kind, text: &Text) -> Option<ReadFault>
    ensures { MatchOption result (reads kind.now text.now ≡ true)
        (λ fault. fault ≢ ReadFault.NoMemory → reads kind.now text.now ≡ false) }
{
    lg_params::read(alloc, kind, text).err()
}

fn unread(alloc: Global, fault: ReadFault) -> DeclareFault
    ensures memory { fault ≡ ReadFault.NoMemory → result ≡ NoMemory }
    ensures other { fault ≢ ReadFault.NoMemory → Faults result (BadValue (codes "default")) }
{
    match fault {
        ReadFault::NoMemory => DeclareFault::NoMemory,
        ReadFault::BadText | ReadFault::NotAChoice | ReadFault::OutOfRange => {
            DeclareFault::bad_value(alloc, "default")
        }
    }
}

fn significant_in(alloc: Global, parameter: &Value) -> Result<bool, DeclareFault>
    ensures { Answers result (significant_in (view parameter.now)) }
{
    match parameter.get("significant") {
        Some(value) => truth_at(alloc, "significant", value),
        None => Ok(true),
    }
}

/// A choice needs choices, and no other kind has any.
fn with_choices(alloc: Global, kind: Kind, parameter: &Value) -> Result<Kind, DeclareFault>
    ensures { Answers result (with_choices kind (view parameter.now)) }
{
    if is_choice(&kind) {
        needed_choices(alloc, parameter)
    } else {
        no_choices(alloc, kind, parameter)
    }
}

fn no_choices(alloc: Global, kind: Kind, parameter: &Value) -> Result<Kind, DeclareFault>
    ensures { Answers result (no_choices kind (view parameter.now)) }
{
    ensured(alloc, "choices", !is_there("choices", parameter))?;
    Ok(kind)
}

fn needed_choices(alloc: Global, parameter: &Value) -> Result<Kind, DeclareFault>
    ensures { Answers result (needed_choices (get (codes "choices") (view parameter.now))) }
{
    match parameter.get("choices") {
        Some(value) => choices_of(alloc, value),
        None => Err(DeclareFault::bad_value(alloc, "choices")),
    }
}

fn choices_of(alloc: Global, value: &Value) -> Result<Kind, DeclareFault>
    ensures { Answers result (choices_of (view value.now)) }
{
    let items = items_at(alloc, "choices", value)?;
    let choices = choices_in(alloc, items)?;
    Ok(Kind::Choice(TextList::from_vec(choices)))
}

/// Texts, each once.
fn choices_in(alloc: Global, items: &[Value]) -> Result<Vec<Text>, DeclareFault>
    ensures { Answers (list_in result) (choices_from [] (items_view items.now)) }
{
    let mut choices: Vec<Text> = Vec::new(alloc);
    for item in items {
        let text = choice_of(alloc, &choices, item)?;
        choices.push(text)?;
    }
    Ok(choices)
}

fn choice_of(alloc: Global, found: &[Text], item: &Value) -> Result<Text, DeclareFault>
    ensures { Answers result (choice_of found.now (view item.now)) }
{
    let word = text_at(alloc, "choices", item)?;
    let text = Text::copied(alloc, word)?;
    new_choice(found, text)
}

fn new_choice(found: &[Text], text: Text) -> Result<Text, DeclareFault>
    ensures { Answers result (new_choice found.now text) }
{
    if stands_in(found, text.as_str()) {
        Err(DeclareFault::DoubleName(text))
    } else {
        Ok(text)
    }
}

fn stands_in(choices: &[Text], text: &str) -> bool
    ensures { result ≡ is_among choices.now text.now }
{
    choices.iter().any(|choice| choice.as_str() == text)
}

fn batch_in(alloc: Global, kind: &Kind, parameter: &Value) -> Result<Option<Batch>, DeclareFault>
    ensures { Answers result (batch_in kind.now (view parameter.now)) }
{
    match parameter.get("batch") {
        Some(value) => batch_of(alloc, kind, value),
        None => Ok(None),
    }
}

fn batch_of(alloc: Global, kind: &Kind, value: &Value) -> Result<Option<Batch>, DeclareFault>
    ensures { Answers result (batch_of kind.now (view value.now)) }
{
    let word = text_at(alloc, "batch", value)?;
    let batch = batch_meant(alloc, word)?;
    joinable(alloc, word, kind, batch)?;
    Ok(Some(batch))
}

fn batch_meant(alloc: Global, word: &str) -> Result<Batch, DeclareFault>
    ensures { Answers result (word_in batch_words word.now) }
{
    match batch_named(word) {
        Some(batch) => Ok(batch),
        None => Err(DeclareFault::unknown_kind(alloc, word)),
    }
}

fn batch_named(word: &str) -> Option<Batch>
    ensures { result ≡ lookup (bytes_eq word.now) batch_words }
{
    match word {
        "max" => Some(Batch::Max),
        "min" => Some(Batch::Min),
        "csv" => Some(Batch::Csv),
        _ => None,
    }
}

fn joinable(alloc: Global, word: &str, kind: &Kind, batch: Batch) -> Result<(), DeclareFault>
    ensures { Answers result (joinable word.now kind.now batch) }
{
    if is_joinable(kind, batch) {
        Ok(())
    } else {
        Err(DeclareFault::unknown_kind(alloc, word))
    }
}

/// Texts alone are joined.
fn is_joinable(kind: &Kind, batch: Batch) -> bool
    ensures { result ≡ is_joinable kind.now batch }
{
    match batch {
        Batch::Csv => matches!(kind, Kind::Text),
        Batch::Max | Batch::Min => true,
    }
}
