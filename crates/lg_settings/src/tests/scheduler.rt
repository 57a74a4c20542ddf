//! The section `[scheduler]`.

use super::shown;
use std::test::Fail;

/// The settings by default, without limits, as they show.
static DEFAULTS: &str =
    "Ok((Settings { retry_delay: 900000, remove_delay: 600000, worker_disconnect_delay: 60000, \
     disable_window: 3600000, disable_hard_timeout: 999999999000, disable_persist: 86400000, retry_count: 999999999, \
     max_shown_tasks: 100000, max_graph_nodes: 100000, stable_done_cooldown: 10000, prune_on_get_work: false, \
     pause_enabled: true, state_path: None, max_tasks: 1000000 }, Amounts { pairs: [] }))";

/// Files that say nothing of the settings or the limits.
static SILENT: [&str; 9] = [
    "",
    "# nothing\n",
    "[scheduler]\n",
    "[scheduler]\n[resources]\n[worker]\n[retcode]\n",
    "[worker]\nkeep_alive = 3\n",
    "[email]\nformat = \"html\"\n",
    "retry_count = \"x\"\n",
    "scheduler = { retry_counts = 5, Retry_count = \"x\" }\n",
    "[scheduler.retry]\ncount = \"x\"\n",
];

#[test]
fn what_is_absent_has_its_default(rt: HostRuntime) -> Result<(), Fail> {
    for file in &SILENT {
        assert_eq!(rt; shown(rt.alloc(), file)?.as_str(), DEFAULTS, "{file}");
    }
    Ok(())
}

/// A line of the section, and the setting that it gives as it shows.
static SET: [(&str, &str); 36] = [
    ("retry_delay = 0", "{ retry_delay: 0,"),
    (
        "retry_delay = 1000000000000",
        "{ retry_delay: 1000000000000000,",
    ),
    ("retry_delay = 1", "{ retry_delay: 1000,"),
    ("remove_delay = 0", " remove_delay: 0,"),
    (
        "remove_delay = 1000000000000",
        " remove_delay: 1000000000000000,",
    ),
    (
        "worker_disconnect_delay = 0",
        " worker_disconnect_delay: 0,",
    ),
    (
        "worker_disconnect_delay = 1000000000000",
        " worker_disconnect_delay: 1000000000000000,",
    ),
    ("disable_window = 0", " disable_window: 0,"),
    (
        "disable_window = 1000000000000",
        " disable_window: 1000000000000000,",
    ),
    ("disable_hard_timeout = 0", " disable_hard_timeout: 0,"),
    (
        "disable_hard_timeout = 1000000000000",
        " disable_hard_timeout: 1000000000000000,",
    ),
    ("disable_persist = 0", " disable_persist: 0,"),
    (
        "disable_persist = 1000000000000",
        " disable_persist: 1000000000000000,",
    ),
    ("retry_count = 0", " retry_count: 0,"),
    (
        "retry_count = 1000000000000",
        " retry_count: 1000000000000,",
    ),
    ("retry_count = 0x10", " retry_count: 16,"),
    ("retry_count = 1_000", " retry_count: 1000,"),
    ("retry_count = -0", " retry_count: 0,"),
    ("max_shown_tasks = 0", " max_shown_tasks: 0,"),
    (
        "max_shown_tasks = 1000000000000",
        " max_shown_tasks: 1000000000000,",
    ),
    ("max_graph_nodes = 0", " max_graph_nodes: 0,"),
    (
        "max_graph_nodes = 1000000000000",
        " max_graph_nodes: 1000000000000,",
    ),
    ("stable_done_cooldown_secs = 0", " stable_done_cooldown: 0,"),
    (
        "stable_done_cooldown_secs = 1000000000000",
        " stable_done_cooldown: 1000000000000000,",
    ),
    ("prune_on_get_work = true", " prune_on_get_work: true,"),
    ("prune_on_get_work = false", " prune_on_get_work: false,"),
    ("pause_enabled = true", " pause_enabled: true,"),
    ("pause_enabled = false", " pause_enabled: false,"),
    (
        "state_path = \"s\"",
        " state_path: Some(Text { inner: \"s\" }),",
    ),
    (
        "state_path = ''",
        " state_path: Some(Text { inner: \"\" }),",
    ),
    ("max_tasks = 1", " max_tasks: 1 }"),
    ("max_tasks = 1000000", " max_tasks: 1000000 }"),
    ("\"max_tasks\" = 7", " max_tasks: 7 }"),
    ("max_tasks = 7 # few", " max_tasks: 7 }"),
    ("other = \"x\"\nmax_tasks = 7", " max_tasks: 7 }"),
    ("max_tasks = 7\n[other]\nmax_tasks = 0", " max_tasks: 7 }"),
];

#[test]
fn each_key_sets_its_setting(rt: HostRuntime) -> Result<(), Fail> {
    for (line, setting) in &SET {
        let file = format!(in rt.alloc(); "[scheduler]\n{line}\n")?;
        let answer = shown(rt.alloc(), file.as_str())?;
        assert!(rt; answer.as_str().contains(setting), "{line}");
    }
    Ok(())
}
