//! The families of a declaration.
ghost use Rattle.toml.specs.View.{view};
ghost use Rattle.lg_declare.specs.Declaring.{Answers};
ghost use Rattle.lg_declare.specs.Families.{work_in, family_in, family_of, families_of};

use crate::commands::{command_in, external_in, outputs_in};
use crate::declare_fault::DeclareFault;
use crate::family::{Family, Requirement};
use crate::parameters::parameters_in;
use crate::requirements::requires_in;
use crate::template::Template;
use crate::terms::terms_in;
use crate::values::{each_member, ensured, members_at, name_of, only_keys};
use crate::words::{FAMILY_KEYS, is_name};
use lg_base::Seq;
use std::alloc::Global;
use toml::Value;

/// Families, in the order of their names' bytes.
pub(crate) fn families_of(alloc: Global, families: &Value) -> Result<Seq<Family>, DeclareFault>
    ensures { Answers result (families_of (view families.now)) }
{
    let members = members_at(alloc, "task", families)?;
    let all = each_member(
        alloc,
        members,
        |name, value| family_of(alloc, families, name, value),
    )?;
    Ok(Seq::from_vec(all))
}

/// A family by its name and its value, among all families.
fn family_of(
    alloc: Global,
    families: &Value,
    name: &str,
    value: &Value,
) -> Result<Family, DeclareFault>
    ensures { Answers result (family_of (view families.now) name.now (view value.now)) }
{
    ensured(alloc, name, is_name(name))?;
    let members = members_at(alloc, name, value)?;
    only_keys(alloc, &FAMILY_KEYS, members)?;
    family_in(alloc, families, name, value)
}

/// What a family's tasks do.
#[derive(Drop)]
struct Work {
    command: Option<Seq<Template>>,
    outputs: Seq<Template>,
    external: bool,
    requirements: Seq<Requirement>,
}

fn family_in(
    alloc: Global,
    families: &Value,
    name: &str,
    family: &Value,
) -> Result<Family, DeclareFault>
    ensures { Answers result (family_in (view families.now) name.now (view family.now)) }
{
    let work = work_in(alloc, families, family)?;
    let terms = terms_in(alloc, family)?;
    let params = parameters_in(alloc, family)?;
    let name = name_of(alloc, name)?;
    Ok(Family {
        name,
        command: work.command,
        outputs: work.outputs,
        external: work.external,
        requirements: work.requirements,
        resources: terms.resources,
        priority: terms.priority,
        retries: terms.retries,
        max_batch_size: terms.max_batch_size,
        params,
    })
}

fn work_in(alloc: Global, families: &Value, family: &Value) -> Result<Work, DeclareFault>
    ensures { Answers result (work_in (view families.now) (view family.now)) }
{
    let command = command_in(alloc, families, family)?;
    let outputs = outputs_in(alloc, family)?;
    let external = external_in(alloc, family)?;
    let requirements = requires_in(alloc, families, family)?;
    Ok(Work {
        command,
        outputs,
        external,
        requirements,
    })
}
