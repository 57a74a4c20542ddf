//! The section `[resources]`.
ghost use Rattle.std.specs.Prelude.{◌≡◌};
ghost use Rattle.toml.specs.View.{view, table_view};
ghost use Rattle.lg_settings.specs.Limits.{limits};
ghost use Rattle.lg_settings.specs.Numbers.{amount, number_of};
ghost use Rattle.lg_settings.specs.Reading.{Answers};

use crate::fault::SettingsFault;
use crate::numbers::AMOUNT;
use lg_base::{Amounts, Name, Text};
use std::alloc::Global;
use toml::{Table, Value};

/// The limits that the keys of the section say.
pub(crate) fn limits(alloc: Global, keys: &Table) -> Result<Amounts, SettingsFault>
    ensures { Answers (limits (table_view keys.now)) result }
{
    let mut limits = Amounts::new(alloc);
    for (name, value) in keys {
        match limit_of(value) {
            Some(limit) => {
                let name = Name::from(Text::copied(alloc, name.as_str())?);
                limits.put(name, limit)?;
            }
            None => return Err(SettingsFault::NotSettings),
        }
    }
    Ok(limits)
}

fn limit_of(value: &Value) -> Option<u32>
    ensures { result ≡ number_of amount (view value.now) }
{
    u32::try_from(AMOUNT.number_of(value)?).ok()
}
