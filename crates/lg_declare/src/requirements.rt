//! What has to be done before a family's tasks.
ghost use Rattle.std.specs.Prelude.{◌≡◌, codes};
ghost use Rattle.toml.specs.Data.{get};
ghost use Rattle.toml.specs.View.{view};
ghost use Rattle.lg_declare.specs.Declaring.{Answers, seen};
ghost use Rattle.lg_declare.specs.Keys.{has_parameter, text_in};
ghost use Rattle.lg_declare.specs.Reading.{right_kind};
ghost use Rattle.lg_declare.specs.Requirements.{given_of, givens_of, givens_in, declared_family, requirement_in, requirement_of, requirements_of, requires_in};

use crate::commands::{parameter_names, template_at};
use crate::declare_fault::DeclareFault;
use crate::family::Requirement;
use crate::template::Template;
use crate::values::{
    each_item, each_member, ensured, is_there, items_at, members_at, name_of, only_keys, text_in,
};
use crate::words::REQUIREMENT_KEYS;
use lg_base::{Name, Seq};
use std::alloc::Global;
use toml::Value;

pub(crate) fn requires_in(
    alloc: Global,
    families: &Value,
    family: &Value,
) -> Result<Seq<Requirement>, DeclareFault>
    ensures { Answers result (requires_in (view families.now) (view family.now)) }
{
    match family.get("requires") {
        Some(value) => {
            let names = parameter_names(alloc, family)?;
            requirements_of(alloc, families, &names, value)
        }
        None => Ok(Seq::new(alloc)),
    }
}

fn requirements_of(
    alloc: Global,
    families: &Value,
    names: &[Name],
    value: &Value,
) -> Result<Seq<Requirement>, DeclareFault>
    ensures { Answers result (requirements_of (view families.now) names.now (view value.now)) }
{
    let items = items_at(alloc, "requires", value)?;
    let all = each_item(
        alloc,
        items,
        |item| requirement_of(alloc, families, names, item),
    )?;
    Ok(Seq::from_vec(all))
}

fn requirement_of(
    alloc: Global,
    families: &Value,
    names: &[Name],
    value: &Value,
) -> Result<Requirement, DeclareFault>
    ensures { Answers result (requirement_of (view families.now) names.now (view value.now)) }
{
    let members = members_at(alloc, "requires", value)?;
    only_keys(alloc, &REQUIREMENT_KEYS, members)?;
    requirement_in(alloc, families, names, value)
}

fn requirement_in(
    alloc: Global,
    families: &Value,
    names: &[Name],
    requirement: &Value,
) -> Result<Requirement, DeclareFault>
    ensures { Answers result (requirement_in (view families.now) names.now (view requirement.now)) }
{
    let text = task_in(alloc, requirement)?;
    let required = declared_family(alloc, families, text)?;
    let params = givens_in(alloc, required, names, requirement)?;
    let task = name_of(alloc, text)?;
    Ok(Requirement { task, params })
}

fn task_in<'a>(alloc: Global, requirement: &'a Value) -> Result<&'a str, DeclareFault>
    ensures { Answers (seen (λ text. text.now) result)
        (right_kind (codes "task") (text_in (codes "task") (view requirement.entry.now))) }
{
    match text_in("task", requirement) {
        Some(task) => Ok(task),
        None => Err(DeclareFault::bad_value(alloc, "task")),
    }
}

fn declared_family<'a>(
    alloc: Global,
    families: &'a Value,
    task: &str,
) -> Result<&'a Value, DeclareFault>
    ensures { Answers (seen (λ family. view family.now) result)
        (declared_family task.now (get task.now (view families.entry.now))) }
{
    match families.get(task) {
        Some(family) => Ok(family),
        None => Err(DeclareFault::unknown_family(alloc, task)),
    }
}

fn givens_in(
    alloc: Global,
    required: &Value,
    names: &[Name],
    requirement: &Value,
) -> Result<Seq<(Name, Template)>, DeclareFault>
    ensures { Answers result (givens_in (view required.now) names.now (view requirement.now)) }
{
    match requirement.get("params") {
        Some(value) => givens_of(alloc, required, names, value),
        None => Ok(Seq::new(alloc)),
    }
}

fn givens_of(
    alloc: Global,
    required: &Value,
    names: &[Name],
    value: &Value,
) -> Result<Seq<(Name, Template)>, DeclareFault>
    ensures { Answers result (givens_of (view required.now) names.now (view value.now)) }
{
    let members = members_at(alloc, "params", value)?;
    let givens = each_member(
        alloc,
        members,
        |name, given| given_of(alloc, required, names, name, given),
    )?;
    Ok(Seq::from_vec(givens))
}

/// What is given for a parameter that the required family has.
fn given_of(
    alloc: Global,
    required: &Value,
    names: &[Name],
    parameter: &str,
    value: &Value,
) -> Result<(Name, Template), DeclareFault>
    ensures { Answers result (given_of (view required.now) names.now parameter.now (view value.now)) }
{
    ensured(alloc, parameter, has_parameter(required, parameter))?;
    let template = template_at(alloc, parameter, names, value)?;
    let name = name_of(alloc, parameter)?;
    Ok((name, template))
}

fn has_parameter(family: &Value, name: &str) -> bool
    ensures { result ≡ has_parameter (view family.now) name.now }
{
    match family.get("params") {
        Some(parameters) => is_there(name, parameters),
        None => false,
    }
}
