//! A settings file as a whole.
ghost use Rattle.std.specs.Prelude.{◌≡◌, Some, IfOk, IfErr};
ghost use Rattle.std.specs.FinMap.{entries};
ghost use Rattle.toml.specs.View.{table_view};
ghost use Rattle.lg_base.specs.Names.{AreInOrder};
ghost use Rattle.lg_calls.specs.Settings.{AreInRange};
ghost use Rattle.lg_settings.specs.Reading.{Answers, IsDue};
ghost use Rattle.lg_settings.specs.Settings.{document_of, settings_of};

use crate::fault::SettingsFault;
use crate::sections::sections;
use lg_base::Amounts;
use lg_calls::Settings;
use std::alloc::Global;
use toml::Table;

/// The settings of the section `[scheduler]` and the limits of `[resources]`, of a file in TOML 1.1. The keys and their
/// defaults are those of Luigi 3 where Luigi has them. Seconds and counts are whole numbers from 0 to 10^12, `max_tasks` one
/// from 1 to 1,000,000, and limits from 0 to 4,294,967,295; seconds become milliseconds. A key that is absent has its
/// default, and so has each key of a section that is absent; other keys and sections are ignored.
///
/// `NotSettings` where the bytes aren't UTF-8 or no TOML, where one of these keys is of another kind or out of its range,
/// where a value of `[resources]` is no limit, and where `scheduler`, `resources`, `worker` or `retcode` is no table.
/// `NoMemory` where memory ran out.
pub fn settings_of(alloc: Global, bytes: &[u8]) -> Result<(Settings, Amounts), SettingsFault>
    ensures read { Answers (settings_of bytes.now) result }
    ensures in_range { IfOk result (λ read. AreInRange read.0) }
    ensures in_order { IfOk result (λ read. AreInOrder (entries read.1)) }
{
    let document = document_of(alloc, bytes)?;
    sections(alloc, &document)
}

/// The table that the bytes write.
fn document_of(alloc: Global, bytes: &[u8]) -> Result<Table, SettingsFault>
    ensures ok { IfOk result (λ table. document_of bytes.now ≡ Some (table_view table)) }
    ensures err { IfErr result (IsDue (document_of bytes.now)) }
{
    match toml::table_from_slice(alloc, bytes) {
        Ok(document) => Ok(document),
        Err(fault) if fault.is_memory() => Err(SettingsFault::NoMemory),
        Err(_) => Err(SettingsFault::NotSettings),
    }
}
