//! The section `[scheduler]`.
ghost use Rattle.std.specs.Prelude.{IfOk};
ghost use Rattle.toml.specs.View.{table_view};
ghost use Rattle.lg_calls.specs.Settings.{AreInRange};
ghost use Rattle.lg_settings.specs.Reading.{Answers};
ghost use Rattle.lg_settings.specs.Scheduler.{scheduler};

use crate::fault::SettingsFault;
use crate::keys::{text, truth};
use crate::numbers::{COUNT, TASKS, TIME};
use lg_calls::Settings;
use std::alloc::Global;
use toml::Table;

/// The settings that the keys of the section say; a key that is absent has the default of Luigi 3 where Luigi has the key.
pub(crate) fn scheduler(alloc: Global, keys: &Table) -> Result<Settings, SettingsFault>
    ensures read { Answers (scheduler (table_view keys.now)) result }
    ensures in_range { IfOk result AreInRange }
{
    let retry_delay = TIME.key(keys, "retry_delay", 900)?;
    let remove_delay = TIME.key(keys, "remove_delay", 600)?;
    let worker_disconnect_delay = TIME.key(keys, "worker_disconnect_delay", 60)?;
    let disable_window = TIME.key(keys, "disable_window", 3_600)?;
    let disable_hard_timeout = TIME.key(keys, "disable_hard_timeout", 999_999_999)?;
    let disable_persist = TIME.key(keys, "disable_persist", 86_400)?;
    let retry_count = COUNT.key(keys, "retry_count", 999_999_999)?;
    let max_shown_tasks = COUNT.key(keys, "max_shown_tasks", 100_000)?;
    let max_graph_nodes = COUNT.key(keys, "max_graph_nodes", 100_000)?;
    let stable_done_cooldown = TIME.key(keys, "stable_done_cooldown_secs", 10)?;
    let prune_on_get_work = truth(keys, "prune_on_get_work", false)?;
    let pause_enabled = truth(keys, "pause_enabled", true)?;
    let max_tasks = TASKS.key(keys, "max_tasks", 1_000_000)?;
    let state_path = text(alloc, keys, "state_path")?;
    Ok(Settings {
        retry_delay,
        remove_delay,
        worker_disconnect_delay,
        disable_window,
        disable_hard_timeout,
        disable_persist,
        retry_count,
        max_shown_tasks,
        max_graph_nodes,
        stable_done_cooldown,
        prune_on_get_work,
        pause_enabled,
        state_path,
        max_tasks,
    })
}
