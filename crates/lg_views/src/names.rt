//! The name under which a task is shown.
ghost use Rattle.std.specs.Prelude.{◌≡◌, ◌++◌, IfOk, OnOk, string_bytes};
ghost use Rattle.lg_calls.specs.Views.DisplayName as spec;

use lg_base::{Name, NoMemory, Text};
use lg_calls::TaskRec;
use std::alloc::Global;

/// The name under which a task is shown: its family, and between parentheses its parameters as `name=value`, in the order in
/// which the record has them, with a comma and a blank between each two (Luigi 3, `pretty_id`). Refused only where there is
/// no memory.
pub fn display_name(alloc: Global, task: &TaskRec) -> Result<Text, NoMemory>
    ensures { IfOk result (λ name. name ≡ spec.display_name task.now) }
{
    let mut text = String::new(alloc);
    text.push_str(task.family.as_str())?;
    text.push_str("(")?;
    push_params(&mut text, task.params.as_slice())?;
    text.push_str(")")?;
    Ok(Text::from_string(text))
}

fn push_params(text: &mut String, params: &[(Name, Text)]) -> Result<(), NoMemory>
    ensures { OnOk result (string_bytes text.new ≡ string_bytes text.old ++ spec.params_text params.now) }
{
    let mut later = false;
    for (name, value) in params {
        text.push_str(separator_if(later))?;
        push_param(text, name, value)?;
        later = true;
    }
    Ok(())
}

// A comma and a blank, where something stands before.
fn separator_if(later: bool) -> &'static str
    ensures { result.now ≡ spec.separator_if later }
{
    if later { ", " } else { "" }
}

fn push_param(text: &mut String, name: &Name, value: &Text) -> Result<(), NoMemory>
    ensures { OnOk result (string_bytes text.new ≡ string_bytes text.old ++ spec.param_text (name.now, value.now)) }
{
    text.push_str(name.as_str())?;
    text.push_str("=")?;
    text.push_str(value.as_str())?;
    Ok(())
}
