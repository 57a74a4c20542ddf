ghost use Rattle.std.specs.Prelude.{◌≡◌, IfOk};
ghost use Rattle.lg_calls.specs.Settings.{AreInRange, default_settings, policy_of};

use lg_base::{NoMemory, Text};
use lg_retry::Policy;
use std::alloc::AllocError;

// One second in milliseconds.
const SECOND: u64 = 1_000;

/// What the scheduler is set to. The names are those of Luigi 3's section `[scheduler]`, times in milliseconds from 0 to
/// 10^15, counts from 0 to 10^12.
#[derive(Debug, Drop)]
pub struct Settings {
    /// How long after a failure a task is tried again.
    pub retry_delay: u64,
    /// How long a task stays that nobody wants any more.
    pub remove_delay: u64,
    /// How long a worker may be silent.
    pub worker_disconnect_delay: u64,
    /// How long a failure counts.
    pub disable_window: u64,
    /// How long after its first failure a task has failed too often.
    pub disable_hard_timeout: u64,
    /// How long a task stays disabled.
    pub disable_persist: u64,
    /// With this many failures inside the window a task has failed too often.
    pub retry_count: u64,
    /// The most tasks that a listing shows.
    pub max_shown_tasks: u64,
    /// The most tasks that a graph shows.
    pub max_graph_nodes: u64,
    /// How long a task that is done isn't taken for pending again.
    pub stable_done_cooldown: u64,
    /// Whether each request for work prunes.
    pub prune_on_get_work: bool,
    /// Whether the scheduler can be paused.
    pub pause_enabled: bool,
    /// The file that keeps the state.
    pub state_path: Option<Text>,
    /// The most tasks that the scheduler keeps, from 1 to 1,000,000.
    pub max_tasks: u64,
}

impl Settings {
    /// The defaults, which are those of Luigi 3 where it has the setting: nothing is kept in a file, and up to 1,000,000
    /// tasks are kept. It takes no memory.
    pub fn new() -> Settings
        ensures defaults { result ≡ default_settings }
        ensures in_range { AreInRange result }
    {
        Settings {
            retry_delay: 900 * SECOND,
            remove_delay: 600 * SECOND,
            worker_disconnect_delay: 60 * SECOND,
            disable_window: 3_600 * SECOND,
            disable_hard_timeout: 999_999_999 * SECOND,
            disable_persist: 86_400 * SECOND,
            retry_count: 999_999_999,
            max_shown_tasks: 100_000,
            max_graph_nodes: 100_000,
            stable_done_cooldown: 10 * SECOND,
            prune_on_get_work: false,
            pause_enabled: true,
            state_path: None,
            max_tasks: 1_000_000,
        }
    }

    /// The retry policy of a task that is given none of its own.
    pub fn policy(&self) -> Policy
        ensures { result ≡ policy_of self.now }
    {
        Policy {
            retry_count: self.retry_count,
            disable_window: self.disable_window,
            disable_hard_timeout: self.disable_hard_timeout,
        }
    }

    /// Settings equal to these. Refused only where there is no memory.
    pub fn copy(&self) -> Result<Settings, NoMemory>
        ensures { IfOk result (λ copy. copy ≡ self.now) }
    {
        Ok(self.clone()?)
    }
}

impl Clone for Settings {
    ghost is_clone = { λ old new. new ≡ old };

    fn clone(&self) -> Result<Settings, AllocError> {
        let state_path = self.state_path.clone()?;
        Ok(Settings {
            retry_delay: self.retry_delay,
            remove_delay: self.remove_delay,
            worker_disconnect_delay: self.worker_disconnect_delay,
            disable_window: self.disable_window,
            disable_hard_timeout: self.disable_hard_timeout,
            disable_persist: self.disable_persist,
            retry_count: self.retry_count,
            max_shown_tasks: self.max_shown_tasks,
            max_graph_nodes: self.max_graph_nodes,
            stable_done_cooldown: self.stable_done_cooldown,
            prune_on_get_work: self.prune_on_get_work,
            pause_enabled: self.pause_enabled,
            state_path,
            max_tasks: self.max_tasks,
        })
    }
}
