//! The sections of a settings file.
ghost use Rattle.std.specs.Prelude.{◌≡◌, Some, None, IfOk, IfErr, codes};
ghost use Rattle.toml.specs.Data.{get_member};
ghost use Rattle.toml.specs.View.{table_view};
ghost use Rattle.lg_calls.specs.Settings.{AreInRange};
ghost use Rattle.lg_settings.specs.Limits as spec_limits;
ghost use Rattle.lg_settings.specs.Reading.{Answers};
ghost use Rattle.lg_settings.specs.Scheduler as spec_scheduler;
ghost use Rattle.lg_settings.specs.Sections.{keys_in, keys_of, section, sections};
ghost use Rattle.lg_settings.specs.declared.fault.SettingsFault.TheVariants.{NotSettings};

use crate::fault::SettingsFault;
use crate::limits::limits;
use crate::scheduler::scheduler;
use lg_base::Amounts;
use lg_calls::Settings;
use std::alloc::Global;
use toml::Table;

/// The settings and the limits that a document says.
pub(crate) fn sections(
    alloc: Global,
    document: &Table,
) -> Result<(Settings, Amounts), SettingsFault>
    ensures read { Answers (sections (table_view document.now)) result }
    ensures in_range { IfOk result (λ read. AreInRange read.0) }
{
    let settings = settings_in(alloc, document)?;
    let limits = limits_in(alloc, document)?;
    section(document, "worker")?;
    section(document, "retcode")?;
    Ok((settings, limits))
}

/// The settings of a document.
fn settings_in(alloc: Global, document: &Table) -> Result<Settings, SettingsFault>
    ensures read { Answers (section (codes "scheduler") spec_scheduler.scheduler (table_view document.now)) result }
    ensures in_range { IfOk result AreInRange }
{
    match section(document, "scheduler")? {
        Some(keys) => scheduler(alloc, keys),
        None => Ok(Settings::new()),
    }
}

/// The limits of a document.
fn limits_in(alloc: Global, document: &Table) -> Result<Amounts, SettingsFault>
    ensures { Answers (section (codes "resources") spec_limits.limits (table_view document.now)) result }
{
    match section(document, "resources")? {
        Some(keys) => limits(alloc, keys),
        None => Ok(Amounts::new(alloc)),
    }
}

/// The section of this name, where there is one. It is refused where what has the name is no table.
fn section<'a>(document: &'a Table, name: &str) -> Result<Option<&'a Table>, SettingsFault>
    ensures ok { IfOk result (λ found. keys_in (get_member name.now (table_view document.now)) ≡ Some (keys_of found)) }
    ensures err { IfErr result (λ fault. (fault ≡ NotSettings) × (keys_in (get_member name.now (table_view document.now)) ≡ None)) }
{
    match document.get(name) {
        None => Ok(None),
        Some(value) => match value.as_table() {
            Some(keys) => Ok(Some(keys)),
            None => Err(SettingsFault::NotSettings),
        },
    }
}
