ghost use Rattle.std.specs.Prelude.{◌≡◌, All, IsUtf8, [], ◌∷◌, ◌++◌, List, ℕ, map, flat_map, IfOk, OnOk};
ghost use Rattle.std.specs.List.{join_by};
ghost use Rattle.std.specs.String.{string_bytes};
ghost use Rattle.serde_json.specs.Data.{string, array};
ghost use Rattle.serde_json.specs.Find.{as_str};
ghost use Rattle.serde_json.specs.View.{view, items_of};
ghost use Rattle.lg_json.specs.Text.{quoted};
ghost use Rattle.lg_params.specs.Finds.{Finds};
ghost use Rattle.lg_params.specs.Refusing.{Answers};
ghost use Rattle.lg_params.specs.Writing.{list_text};
ghost use Rattle.lg_params.specs.declared.kinds.Kind.{Kind};

use crate::{Param, ReadFault, TextList};
use lg_base::{NoMemory, Text};
use lg_json::quote;
use serde_json::Value;
use std::alloc::{AllocError, Global};

/// The list of texts that a JSON text says.
pub(crate) fn read_texts(alloc: Global, text: &str) -> Result<Param, ReadFault>
    ensures { Answers Kind.Texts text.now result }
{
    match Value::from_str(alloc, text) {
        Ok(value) => match texts_of(alloc, value)? {
            Some(texts) => Ok(Param::Texts(texts)),
            None => Err(ReadFault::BadText),
        },
        Err(error) if error.is_memory() => Err(ReadFault::NoMemory),
        Err(_) => Err(ReadFault::BadText),
    }
}

fn texts_of(alloc: Global, value: Value) -> Result<Option<TextList>, AllocError>
    ensures { IfOk result (Finds (λ texts. view value ≡ array (items_of (map string texts)))) }
{
    match value {
        Value::Array(items) => all_texts(alloc, items),
        _ => Ok(None),
    }
}

fn all_texts(alloc: Global, items: Vec<Value>) -> Result<Option<TextList>, AllocError>
    ensures { IfOk result (Finds (λ texts. map view items.items ≡ map string texts)) }
{
    let mut texts = Vec::new(alloc);
    for item in items {
        let Some(text) = into_text(item) else {
            return Ok(None);
        };
        texts.push(text)?;
    }
    Ok(Some(TextList::from_vec(texts)))
}

fn into_text(value: Value) -> Option<Text>
    ensures { result ≡ as_str (view value) }
{
    match value {
        Value::String(text) => Some(Text::from_string(text)),
        _ => None,
    }
}

/// The texts between brackets, each between quotes with its escapes, and a comma and a blank between each two.
pub(crate) fn list_text(alloc: Global, texts: &[Text]) -> Result<Text, NoMemory>
    ensures { IfOk result (λ text. (text ≡ list_text texts.now) × All IsUtf8 texts.now) }
{
    let mut list = String::from_str(alloc, "[")?;
    push_joined(alloc, &mut list, texts)?;
    list.push_str("]")?;
    Ok(Text::from_string(list))
}

fn push_joined(alloc: Global, list: &mut String, texts: &[Text]) -> Result<(), NoMemory>
    ensures text { OnOk result (string_bytes list.new
        ≡ string_bytes list.old ++ join_by quoted (44 ∷ 32 ∷ []) texts.now) }
    ensures utf8 { OnOk result (All IsUtf8 texts.now) }
{
    match texts {
        [] => Ok(()),
        [first, others @ ..] => {
            list.push_str(quote(alloc, first.as_str())?.as_str())?;
            push_others(alloc, list, others)
        }
    }
}

fn push_others(alloc: Global, list: &mut String, texts: &[Text]) -> Result<(), NoMemory>
    ensures text { OnOk result (string_bytes list.new
        ≡ string_bytes list.old ++ flat_map (λ text. 44 ∷ 32 ∷ quoted text) texts.now) }
    ensures utf8 { OnOk result (All IsUtf8 texts.now) }
{
    for text in texts {
        list.push_str(", ")?;
        list.push_str(quote(alloc, text.as_str())?.as_str())?;
    }
    Ok(())
}
