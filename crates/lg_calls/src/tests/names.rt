//! The names of the methods.

use crate::{Method, MethodFault};

/// Luigi's names, in the order of their bytes.
const NAMES: [(&str, Method); 32] = [
    ("add_task", Method::AddTask),
    ("add_task_batcher", Method::AddTaskBatcher),
    ("add_worker", Method::AddWorker),
    (
        "announce_scheduling_failure",
        Method::AnnounceSchedulingFailure,
    ),
    ("count_pending", Method::CountPending),
    ("disable_worker", Method::DisableWorker),
    ("fetch_error", Method::FetchError),
    ("forgive_failures", Method::ForgiveFailures),
    (
        "get_running_task_resources",
        Method::GetRunningTaskResources,
    ),
    (
        "get_task_progress_percentage",
        Method::GetTaskProgressPercentage,
    ),
    ("get_task_status_message", Method::GetTaskStatusMessage),
    ("get_work", Method::GetWork),
    ("has_task_history", Method::HasTaskHistory),
    ("is_pause_enabled", Method::IsPauseEnabled),
    ("is_paused", Method::IsPaused),
    ("mark_as_done", Method::MarkAsDone),
    ("pause", Method::Pause),
    ("ping", Method::Ping),
    ("prune", Method::Prune),
    ("re_enable_task", Method::ReEnableTask),
    ("resource_list", Method::ResourceList),
    ("resources", Method::Resources),
    (
        "set_task_progress_percentage",
        Method::SetTaskProgressPercentage,
    ),
    ("set_task_status_message", Method::SetTaskStatusMessage),
    ("status_counts", Method::StatusCounts),
    ("stop", Method::Stop),
    ("task_list", Method::TaskList),
    ("task_search", Method::TaskSearch),
    ("unpause", Method::Unpause),
    ("update_resource", Method::UpdateResource),
    ("update_resources", Method::UpdateResources),
    ("worker_list", Method::WorkerList),
];

#[test]
fn each_name_is_of_its_method(rt: HostRuntime) {
    for (name, method) in NAMES {
        assert_eq!(rt; Method::named(name.as_bytes()), Some(method), "{name}");
    }
    for name in ["", "ping ", "PING", "add_task_", "nope"] {
        assert_eq!(rt;
            Method::asked(name.as_bytes()),
            Err(MethodFault::UnknownMethod),
            "{name}"
        );
    }
}
