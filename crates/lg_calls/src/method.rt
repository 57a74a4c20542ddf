//! The methods of the scheduler's RPC, as Luigi 3 names them.
ghost use Rattle.std.specs.Prelude.{◌≡◌, option_map};
ghost use Rattle.lg_calls.specs.Method.{row_named, method_named, method_asked};
ghost use Rattle.lg_calls.specs.Refusal.{method_fault_text};

/// A method of the RPC, built or not.
#[derive(Clone, Copy, Debug, PartialEq, Eq)]
pub enum Method {
    AddTask,
    AddTaskBatcher,
    AddWorker,
    AnnounceSchedulingFailure,
    CountPending,
    DisableWorker,
    FetchError,
    ForgiveFailures,
    GetRunningTaskResources,
    GetTaskProgressPercentage,
    GetTaskStatusMessage,
    GetWork,
    HasTaskHistory,
    IsPauseEnabled,
    IsPaused,
    MarkAsDone,
    Pause,
    Ping,
    Prune,
    ReEnableTask,
    ResourceList,
    Resources,
    SetTaskProgressPercentage,
    SetTaskStatusMessage,
    StatusCounts,
    Stop,
    TaskList,
    TaskSearch,
    Unpause,
    UpdateResource,
    UpdateResources,
    WorkerList,
}

/// Why a name is of no method that can be called.
#[derive(Clone, Copy, Debug, PartialEq, Eq)]
pub enum MethodFault {
    /// No method has this name.
    UnknownMethod,
    /// The method of this name isn't built.
    NotBuilt,
}

impl MethodFault {
    /// The fault in words.
    pub fn words(self) -> &'static str
        ensures { result.now ≡ method_fault_text self }
    {
        match self {
            MethodFault::UnknownMethod => "unknown method",
            MethodFault::NotBuilt => "not built",
        }
    }
}

/// The name of each method, and whether it is built.
const METHODS: [(&[u8], Method, bool); 32] = [
    (b"add_task", Method::AddTask, true),
    (b"add_task_batcher", Method::AddTaskBatcher, false),
    (b"add_worker", Method::AddWorker, true),
    (
        b"announce_scheduling_failure",
        Method::AnnounceSchedulingFailure,
        true,
    ),
    (b"count_pending", Method::CountPending, true),
    (b"disable_worker", Method::DisableWorker, true),
    (b"fetch_error", Method::FetchError, true),
    (b"forgive_failures", Method::ForgiveFailures, true),
    (
        b"get_running_task_resources",
        Method::GetRunningTaskResources,
        false,
    ),
    (
        b"get_task_progress_percentage",
        Method::GetTaskProgressPercentage,
        false,
    ),
    (
        b"get_task_status_message",
        Method::GetTaskStatusMessage,
        false,
    ),
    (b"get_work", Method::GetWork, true),
    (b"has_task_history", Method::HasTaskHistory, true),
    (b"is_pause_enabled", Method::IsPauseEnabled, true),
    (b"is_paused", Method::IsPaused, true),
    (b"mark_as_done", Method::MarkAsDone, true),
    (b"pause", Method::Pause, true),
    (b"ping", Method::Ping, true),
    (b"prune", Method::Prune, false),
    (b"re_enable_task", Method::ReEnableTask, false),
    (b"resource_list", Method::ResourceList, true),
    (b"resources", Method::Resources, true),
    (
        b"set_task_progress_percentage",
        Method::SetTaskProgressPercentage,
        false,
    ),
    (
        b"set_task_status_message",
        Method::SetTaskStatusMessage,
        false,
    ),
    (b"status_counts", Method::StatusCounts, true),
    (b"stop", Method::Stop, true),
    (b"task_list", Method::TaskList, false),
    (b"task_search", Method::TaskSearch, true),
    (b"unpause", Method::Unpause, true),
    (b"update_resource", Method::UpdateResource, true),
    (b"update_resources", Method::UpdateResources, true),
    (b"worker_list", Method::WorkerList, false),
];

impl Method {
    /// The method of this name, built or not.
    pub fn named(name: &[u8]) -> Option<Method>
        ensures { result ≡ method_named name.now }
    {
        let (_, method, _) = row_named(name)?;
        Some(*method)
    }

    /// The method of this name, if it is built. It is `UnknownMethod` where there is none, and else `NotBuilt` where it isn't built.
    pub fn asked(name: &[u8]) -> Result<Method, MethodFault>
        ensures { result ≡ method_asked name.now }
    {
        match row_named(name) {
            Some((_, method, true)) => Ok(*method),
            Some((_, _, false)) => Err(MethodFault::NotBuilt),
            None => Err(MethodFault::UnknownMethod),
        }
    }
}

/// The row of this name.
fn row_named(name: &[u8]) -> Option<&'static (&'static [u8], Method, bool)>
    ensures { option_map (λ row. (row.now.0.now, row.now.1, row.now.2)) result ≡ row_named name.now }
{
    METHODS.iter().find(|(known, _, _)| *known == name)
}
