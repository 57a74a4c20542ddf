//! What a family's tasks run and make: templates.
ghost use Rattle.std.specs.Prelude.{◌≡◌, ◌&&◌, not, IfOk, codes, map, option_map, option_and_then};
ghost use Rattle.toml.specs.Data.{as_table, get};
ghost use Rattle.toml.specs.View.{view, items_view, table_view};
ghost use Rattle.lg_declare.specs.Commands.{or_bad_template, template_at, templates_at, names_in_command, command_of, command_in, outputs_in, external_of, external_in};
ghost use Rattle.lg_declare.specs.Declaring.{Answers};
ghost use Rattle.lg_declare.specs.Keys.{gives_input, keys_of, list_at, member_keys, output_count, parameter_names, text_in};
ghost use Rattle.lg_declare.specs.Reading.{each_item};
ghost use Rattle.lg_declare.specs.Template.{template_of};

use crate::declare_fault::DeclareFault;
use crate::fault::TemplateFault;
use crate::names::command_names;
use crate::template::Template;
use crate::values::{
    each_item, ensured, is_there, items_at, list_at, name_of, text_at, text_in, truth_at,
};
use lg_base::{Name, NoMemory, Seq, Text};
use std::alloc::Global;
use toml::{Table, Value};

/// A text at a key, as a template that may use these names.
pub(crate) fn template_at(
    alloc: Global,
    key: &str,
    names: &[Name],
    value: &Value,
) -> Result<Template, DeclareFault>
    ensures { Answers result (template_at key.now names.now (view value.now)) }
{
    let word = text_at(alloc, key, value)?;
    let text = Text::copied(alloc, word)?;
    template_of(alloc, names, text)
}

fn template_of(alloc: Global, names: &[Name], text: Text) -> Result<Template, DeclareFault>
    ensures { Answers result (or_bad_template text (template_of names.now text)) }
{
    match Template::read(alloc, &text, names) {
        Ok(template) => Ok(template),
        Err(TemplateFault::BadTemplate) => Err(DeclareFault::BadTemplate(text)),
        Err(TemplateFault::NoMemory) => Err(DeclareFault::NoMemory),
    }
}

/// Templates, each of which may use these names.
fn each_template(
    alloc: Global,
    key: &str,
    names: &[Name],
    items: &[Value],
) -> Result<Seq<Template>, DeclareFault>
    ensures { Answers result (each_item (template_at key.now names.now) (items_view items.now)) }
{
    let all = each_item(alloc, items, |item| template_at(alloc, key, names, item))?;
    Ok(Seq::from_vec(all))
}

/// The words of a family's command, where it has one.
pub(crate) fn command_in(
    alloc: Global,
    families: &Value,
    family: &Value,
) -> Result<Option<Seq<Template>>, DeclareFault>
    ensures { Answers result (command_in (view families.now) (view family.now)) }
{
    match family.get("command") {
        Some(value) => {
            let names = names_in_command(alloc, families, family)?;
            command_of(alloc, &names, value)
        }
        None => Ok(None),
    }
}

fn command_of(
    alloc: Global,
    names: &[Name],
    value: &Value,
) -> Result<Option<Seq<Template>>, DeclareFault>
    ensures { Answers result (command_of names.now (view value.now)) }
{
    let items = items_at(alloc, "command", value)?;
    ensured(alloc, "command", !items.is_empty())?;
    let words = each_template(alloc, "command", names, items)?;
    Ok(Some(words))
}

fn names_in_command(alloc: Global, families: &Value, family: &Value) -> Result<Vec<Name>, NoMemory>
    ensures { IfOk result (λ names. names.items ≡ names_in_command (view families.now) (view family.now)) }
{
    let parameters = parameter_names(alloc, family)?;
    let outputs = output_count(family);
    let inputs = inputs_of(alloc, families, list_at("requires", family))?;
    command_names(alloc, parameters, outputs, &inputs)
}

/// What a family's parameters are called, also where they are faulty.
pub(crate) fn parameter_names(alloc: Global, family: &Value) -> Result<Vec<Name>, NoMemory>
    ensures { IfOk result (λ names. names.items ≡ parameter_names (view family.now)) }
{
    match family.get("params") {
        Some(value) => keys_in(alloc, value),
        None => Ok(Vec::new(alloc)),
    }
}

fn keys_in(alloc: Global, value: &Value) -> Result<Vec<Name>, NoMemory>
    ensures { IfOk result (λ names. names.items ≡ keys_of (as_table (view value.now))) }
{
    match value.as_table() {
        Some(table) => key_names(alloc, table),
        None => Ok(Vec::new(alloc)),
    }
}

fn key_names(alloc: Global, table: &Table) -> Result<Vec<Name>, NoMemory>
    ensures { IfOk result (λ names. names.items ≡ member_keys (table_view table.now)) }
{
    let mut names = Vec::new(alloc);
    for (key, _) in table {
        let name = name_of(alloc, key.as_str())?;
        names.push(name)?;
    }
    Ok(names)
}

fn output_count(family: &Value) -> usize
    ensures { result ≡ output_count (view family.now) }
{
    list_at("outputs", family).len()
}

fn inputs_of(alloc: Global, families: &Value, requirements: &[Value]) -> Result<Vec<bool>, NoMemory>
    ensures { IfOk result (λ inputs. inputs.items ≡ map (λ v. gives_input (view families.now) (view v)) requirements.now) }
{
    Ok(
        requirements
            .iter()
            .map(|requirement| gives_input(families, requirement))
            .collect(alloc)?,
    )
}

/// Whether a requirement names a family that has outputs.
fn gives_input(families: &Value, requirement: &Value) -> bool
    ensures { result ≡ gives_input (view families.now) (view requirement.now) }
{
    match family_named(families, requirement) {
        Some(family) => output_count(family) > 0,
        None => false,
    }
}

/// The family that a requirement names, if it is declared.
fn family_named<'a>(families: &'a Value, requirement: &Value) -> Option<&'a Value>
    ensures { option_map (λ family. view family.now) result
        ≡ option_and_then (λ task. get task (view families.entry.now)) (text_in (codes "task") (view requirement.now)) }
{
    match text_in("task", requirement) {
        Some(task) => families.get(task),
        None => None,
    }
}

pub(crate) fn outputs_in(alloc: Global, family: &Value) -> Result<Seq<Template>, DeclareFault>
    ensures { Answers result (outputs_in (view family.now)) }
{
    match family.get("outputs") {
        Some(value) => {
            let names = parameter_names(alloc, family)?;
            templates_at(alloc, "outputs", &names, value)
        }
        None => Ok(Seq::new(alloc)),
    }
}

fn templates_at(
    alloc: Global,
    key: &str,
    names: &[Name],
    value: &Value,
) -> Result<Seq<Template>, DeclareFault>
    ensures { Answers result (templates_at key.now names.now (view value.now)) }
{
    let items = items_at(alloc, key, value)?;
    each_template(alloc, key, names, items)
}

/// Whether the tasks are done by others.
pub(crate) fn external_in(alloc: Global, family: &Value) -> Result<bool, DeclareFault>
    ensures { Answers result (external_in (view family.now)) }
{
    match family.get("external") {
        Some(value) => external_of(alloc, is_there("command", family), value),
        None => Ok(false),
    }
}

fn external_of(alloc: Global, has_command: bool, value: &Value) -> Result<bool, DeclareFault>
    ensures { Answers result (external_of has_command (view value.now)) }
{
    let external = truth_at(alloc, "external", value)?;
    ensured(alloc, "external", agrees(external, has_command))?;
    Ok(external)
}

/// An external family has no command.
fn agrees(external: bool, has_command: bool) -> bool
    ensures { result ≡ not (external && has_command) }
{
    !(external && has_command)
}
