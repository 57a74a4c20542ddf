//! The names that a template may use, by its place.
ghost use Rattle.std.specs.Prelude.{◌≡◌, ℕ, IfOk, ◌++◌, OnOk, map};
ghost use Rattle.std.specs.String.{string_bytes};
ghost use Rattle.lg_declare.specs.Names.{output_name, input_name, output_names, input_names, first_output, command_names};

use lg_base::{Name, NoMemory, Text};
use std::alloc::Global;

/// The names that a command may use: `output` where the family has outputs, `output.K` for each output, and `input.K`
/// for each requirement whose family has outputs, K counted from 0; and behind them the parameters, of which so a
/// parameter named `output` is the last meaning of its name. Only want of memory is refused.
pub fn command_names(
    alloc: Global,
    mut parameters: Vec<Name>,
    outputs: usize,
    inputs: &[bool],
) -> Result<Vec<Name>, NoMemory>
    ensures { IfOk result (λ names. names.items ≡ command_names parameters.items outputs inputs.now) }
{
    let mut names = Vec::new(alloc);
    if outputs > 0 {
        names.push(Name::from(Text::copied(alloc, "output")?))?;
    }
    push_outputs(alloc, &mut names, outputs)?;
    push_inputs(alloc, &mut names, inputs)?;
    names.append(&mut parameters)?;
    Ok(names)
}

fn push_outputs(alloc: Global, names: &mut Vec<Name>, outputs: usize) -> Result<(), NoMemory>
    ensures { OnOk result (names.new.items ≡ names.old.items ++ output_names outputs) }
{
    for place in 0..outputs {
        let name = format!(in alloc; "output.{place}")?;
        names.push(Name::from(Text::from_string(name)))?;
    }
    Ok(())
}

fn push_inputs(alloc: Global, names: &mut Vec<Name>, inputs: &[bool]) -> Result<(), NoMemory>
    ensures { OnOk result (names.new.items ≡ names.old.items ++ input_names inputs.now) }
{
    for (place, has_outputs) in inputs.iter().enumerate() {
        if *has_outputs {
            let name = format!(in alloc; "input.{place}")?;
            names.push(Name::from(Text::from_string(name)))?;
        }
    }
    Ok(())
}
