//! Keys that are truth values or texts.
ghost use Rattle.std.specs.Prelude.{◌≡◌};
ghost use Rattle.std.specs.Option.{ok_or};
ghost use Rattle.toml.specs.Data.{as_str};
ghost use Rattle.toml.specs.View.{view, table_view};
ghost use Rattle.lg_settings.specs.Reading.{truth, text, Answers};
ghost use Rattle.lg_settings.specs.declared.fault.SettingsFault.TheVariants.{NotSettings};

use crate::fault::SettingsFault;
use lg_base::Text;
use std::alloc::Global;
use toml::{Table, Value};

/// The truth value that a key has; `unset` where the key is absent.
pub(crate) fn truth(keys: &Table, name: &str, unset: bool) -> Result<bool, SettingsFault>
    ensures { result ≡ ok_or (truth name.now unset (table_view keys.now)) NotSettings }
{
    match keys.get(name) {
        None => Ok(unset),
        Some(value) => value.as_bool().ok_or(SettingsFault::NotSettings),
    }
}

/// The text that a key has; none where the key is absent.
pub(crate) fn text(alloc: Global, keys: &Table, name: &str) -> Result<Option<Text>, SettingsFault>
    ensures { Answers (text name.now (table_view keys.now)) result }
{
    match keys.get(name) {
        None => Ok(None),
        Some(value) => Ok(Some(text_of(alloc, value)?)),
    }
}

fn text_of(alloc: Global, value: &Value) -> Result<Text, SettingsFault>
    ensures { Answers (as_str (view value.now)) result }
{
    match value.as_str() {
        Some(text) => Ok(Text::copied(alloc, text)?),
        None => Err(SettingsFault::NotSettings),
    }
}
