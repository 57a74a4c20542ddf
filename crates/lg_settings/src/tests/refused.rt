//! What is no settings file.

use super::{shown, shown_bytes};
use std::test::Fail;

/// Lines of the section `[scheduler]` that make a file none.
static SCHEDULER: [&str; 34] = [
    "retry_delay = -1",
    "retry_delay = 1000000000001",
    "remove_delay = -1",
    "remove_delay = 1000000000001",
    "worker_disconnect_delay = -1",
    "worker_disconnect_delay = 1000000000001",
    "disable_window = -1",
    "disable_window = 1000000000001",
    "disable_hard_timeout = -1",
    "disable_hard_timeout = 1000000000001",
    "disable_persist = -1",
    "disable_persist = 1000000000001",
    "retry_count = -1",
    "retry_count = 1000000000001",
    "max_shown_tasks = -1",
    "max_shown_tasks = 1000000000001",
    "max_graph_nodes = -1",
    "max_graph_nodes = 1000000000001",
    "stable_done_cooldown_secs = -1",
    "stable_done_cooldown_secs = 1000000000001",
    "max_tasks = 0",
    "max_tasks = 1000001",
    "retry_count = \"x\"",
    "retry_count = \"5\"",
    "retry_count = 1.0",
    "retry_count = true",
    "retry_count = [5]",
    "retry_count = 9223372036854775808",
    "prune_on_get_work = 1",
    "prune_on_get_work = \"true\"",
    "pause_enabled = 0",
    "state_path = 1",
    "state_path = [\"s\"]",
    "state_path = 2024-02-29",
];

/// Files that are none as a whole.
static FILES: [&str; 17] = [
    "[resources]\ngpu = 4294967296\n",
    "[resources]\ngpu = -1\n",
    "[resources]\ngpu = 1.0\n",
    "[resources]\ngpu = \"2\"\n",
    "[resources]\na = 1\ngpu = true\n",
    "[resources.gpu]\nlimit = 2\n",
    "scheduler = 1\n",
    "resources = [1]\n",
    "worker = \"w\"\n",
    "retcode = 0\n",
    "[[scheduler]]\n",
    "[[retcode]]\n",
    "[scheduler]\nmax_tasks = 1\nmax_tasks = 2\n",
    "[scheduler]\n[scheduler]\n",
    "[scheduler\n",
    "retry_count\n",
    "{}",
];

#[test]
fn a_faulty_key_makes_the_file_none(rt: HostRuntime) -> Result<(), Fail> {
    for line in SCHEDULER {
        let file = format!(in rt.alloc(); "[scheduler]\n{line}\n")?;
        assert_eq!(rt;
            shown(rt.alloc(), file.as_str())?.as_str(),
            "Err(NotSettings)",
            "{line}"
        );
    }
    Ok(())
}

#[test]
fn a_faulty_limit_or_section_makes_the_file_none(rt: HostRuntime) -> Result<(), Fail> {
    for file in FILES {
        assert_eq!(rt;
            shown(rt.alloc(), file)?.as_str(),
            "Err(NotSettings)",
            "{file}"
        );
    }
    Ok(())
}

#[test]
fn bytes_that_are_no_text_are_no_file(rt: HostRuntime) -> Result<(), Fail> {
    let bytes = [b'#', 0xFF, b'\n'];
    assert_eq!(rt;
        shown_bytes(rt.alloc(), bytes.as_slice())?.as_str(),
        "Err(NotSettings)"
    );
    Ok(())
}
