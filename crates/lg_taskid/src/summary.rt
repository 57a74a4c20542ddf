ghost use Rattle.std.specs.Prelude.{◌≡◌, ◌++◌, OnOk, map};
ghost use Rattle.std.specs.String.{string_bytes};
ghost use Rattle.lg_taskid.specs.TaskId.{safe_character, beginning_of, summary_of};

use lg_base::{Name, Text};
use std::alloc::AllocError;

/// Puts the summary of pairs behind what `id` holds: the beginnings of the first three values, with `_` between them.
pub(crate) fn push_summary(id: &mut String, pairs: &[(Name, Text)]) -> Result<(), AllocError>
    ensures { OnOk result (string_bytes id.new ≡ string_bytes id.old ++ summary_of pairs.now) }
{
    let shown = &pairs[..pairs.len().min(3)];
    for (place, (_, value)) in shown.iter().enumerate() {
        if place > 0 {
            id.push('_')?;
        }
        push_beginning(id, value.as_str())?;
    }
    Ok(())
}

/// Puts the first 16 characters of a value behind what `id` holds, with `_` in place of what isn't safe.
fn push_beginning(id: &mut String, value: &str) -> Result<(), AllocError>
    ensures { OnOk result (string_bytes id.new ≡ string_bytes id.old ++ map safe_character (beginning_of value.now)) }
{
    id.extend(value.chars().take(16).map(safe_character))
}

/// The character itself where it is a letter or a digit of ASCII or `_`, and else `_`.
fn safe_character(c: char) -> char
    ensures { result ≡ safe_character c }
{
    if c.is_ascii_alphanumeric() || c == '_' {
        c
    } else {
        '_'
    }
}
