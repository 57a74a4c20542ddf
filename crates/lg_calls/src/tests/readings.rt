//! What each method reads: every argument given, and what stands for those that aren't.

use super::answer_to;
use crate::Method;
use std::test::Fail;

/// Payloads that are read, and the requests that they make as they show.
static READ: [(Method, &str, &str); 31] = [
    (
        Method::CountPending,
        r#"{"worker":"w","other":1}"#,
        "CountPending(CountPending { worker: WorkerId { text: Text { inner: \"w\" } } })",
    ),
    (
        Method::DisableWorker,
        r#"{"worker":"w","other":1}"#,
        "DisableWorker(DisableWorker { worker: WorkerId { text: Text { inner: \"w\" } } })",
    ),
    (
        Method::Ping,
        r#"{"worker":"w","other":1}"#,
        "Ping(Ping { worker: WorkerId { text: Text { inner: \"w\" } } })",
    ),
    (
        Method::FetchError,
        r#"{"task_id":"t","worker":1}"#,
        "FetchError(FetchError { task_id: TaskId { text: Text { inner: \"t\" } } })",
    ),
    (
        Method::ForgiveFailures,
        r#"{"task_id":"t","worker":1}"#,
        "ForgiveFailures(ForgiveFailures { task_id: TaskId { text: Text { inner: \"t\" } } })",
    ),
    (
        Method::GetRunningTaskResources,
        r#"{"task_id":"t","worker":1}"#,
        "GetRunningTaskResources(GetRunningTaskResources { task_id: TaskId { text: Text { inner: \"t\" } } })",
    ),
    (
        Method::GetTaskProgressPercentage,
        r#"{"task_id":"t","worker":1}"#,
        "GetTaskProgressPercentage(GetTaskProgressPercentage { task_id: TaskId { text: Text { inner: \"t\" } } })",
    ),
    (
        Method::GetTaskStatusMessage,
        r#"{"task_id":"t","worker":1}"#,
        "GetTaskStatusMessage(GetTaskStatusMessage { task_id: TaskId { text: Text { inner: \"t\" } } })",
    ),
    (
        Method::MarkAsDone,
        r#"{"task_id":"t","worker":1}"#,
        "MarkAsDone(MarkAsDone { task_id: TaskId { text: Text { inner: \"t\" } } })",
    ),
    (
        Method::ReEnableTask,
        r#"{"task_id":"t","worker":1}"#,
        "ReEnableTask(ReEnableTask { task_id: TaskId { text: Text { inner: \"t\" } } })",
    ),
    (
        Method::TaskSearch,
        r#"{"task_str":""}"#,
        "TaskSearch(TaskSearch { task_str: Text { inner: \"\" } })",
    ),
    (
        Method::WorkerList,
        r#"{}"#,
        "WorkerList(WorkerList { include_running: true })",
    ),
    (
        Method::WorkerList,
        r#"{"include_running":false}"#,
        "WorkerList(WorkerList { include_running: false })",
    ),
    (
        Method::SetTaskProgressPercentage,
        r#"{"progress_percentage":-9223372036854775808,"task_id":"t"}"#,
        "SetTaskProgressPercentage(SetTaskProgressPercentage { task_id: TaskId { text: Text { inner: \"t\" } }, \
         progress_percentage: -9223372036854775808 })",
    ),
    (
        Method::SetTaskStatusMessage,
        r#"{"status_message":"m","task_id":"t"}"#,
        "SetTaskStatusMessage(SetTaskStatusMessage { task_id: TaskId { text: Text { inner: \"t\" } }, \
         status_message: Text { inner: \"m\" } })",
    ),
    (
        Method::UpdateResource,
        r#"{"amount":4294967295,"resource":"r"}"#,
        "UpdateResource(UpdateResource { resource: Name { text: Text { inner: \"r\" } }, amount: 4294967295 })",
    ),
    (
        Method::UpdateResources,
        r#"{}"#,
        "UpdateResources(UpdateResources { limits: Amounts { pairs: [] } })",
    ),
    (
        Method::UpdateResources,
        r#"{"b":0,"a":4294967295}"#,
        "UpdateResources(UpdateResources { limits: Amounts { pairs: [(Name { text: Text { inner: \"a\" } }, \
         4294967295), (Name { text: Text { inner: \"b\" } }, 0)] } })",
    ),
    (
        Method::GetWork,
        r#"{"worker":"w"}"#,
        "GetWork(GetWork { worker: WorkerId { text: Text { inner: \"w\" } }, assistant: false, current_tasks: None })",
    ),
    (
        Method::GetWork,
        r#"{"assistant":true,"current_tasks":["u","t"],"worker":"w"}"#,
        "GetWork(GetWork { worker: WorkerId { text: Text { inner: \"w\" } }, assistant: true, current_tasks: \
         Some(Seq { items: [TaskId { text: Text { inner: \"u\" } }, TaskId { text: Text { inner: \"t\" } }] }) })",
    ),
    (
        Method::GetWork,
        r#"{"assistant":null,"current_tasks":[],"worker":"w"}"#,
        "GetWork(GetWork { worker: WorkerId { text: Text { inner: \"w\" } }, assistant: false, current_tasks: \
         Some(Seq { items: [] }) })",
    ),
    (
        Method::TaskList,
        r#"{}"#,
        "TaskList(ListAsk { status: None, upstream: Text { inner: \"\" }, limit: true, search: None, \
         max_shown_tasks: None })",
    ),
    (
        Method::TaskList,
        r#"{"max_shown_tasks":0,"status":""}"#,
        "TaskList(ListAsk { status: None, upstream: Text { inner: \"\" }, limit: true, search: None, \
         max_shown_tasks: None })",
    ),
    (
        Method::TaskList,
        "{\"limit\":false,\"max_shown_tasks\":1,\"search\":\"s\",\"status\":\"BATCH_RUNNING\",\
         \"upstream_status\":\"UPSTREAM_FAILED\"}",
        "TaskList(ListAsk { status: Some(BatchRunning), upstream: Text { inner: \"UPSTREAM_FAILED\" }, limit: false, \
         search: Some(Text { inner: \"s\" }), max_shown_tasks: Some(1) })",
    ),
    (
        Method::AddTaskBatcher,
        r#"{"batched_args":["b","a"],"task_family":"F","worker":"w"}"#,
        "AddTaskBatcher(AddTaskBatcher { worker: WorkerId { text: Text { inner: \"w\" } }, task_family: Name { text: \
         Text { inner: \"F\" } }, batched_args: Seq { items: [Name { text: Text { inner: \"b\" } }, Name { text: \
         Text { inner: \"a\" } }] }, max_batch_size: None })",
    ),
    (
        Method::AddTaskBatcher,
        r#"{"batched_args":["b","a"],"max_batch_size":1,"task_family":"F","worker":"w"}"#,
        "AddTaskBatcher(AddTaskBatcher { worker: WorkerId { text: Text { inner: \"w\" } }, task_family: Name { text: \
         Text { inner: \"F\" } }, batched_args: Seq { items: [Name { text: Text { inner: \"b\" } }, Name { text: \
         Text { inner: \"a\" } }] }, max_batch_size: Some(1) })",
    ),
    (
        Method::AddWorker,
        r#"{"info":{},"worker":"w"}"#,
        "AddWorker(AddWorker { worker: WorkerId { text: Text { inner: \"w\" } }, info: Seq { items: [] } })",
    ),
    (
        Method::AddWorker,
        r#"{"info":{"b":-1,"a":null},"worker":"w"}"#,
        "AddWorker(AddWorker { worker: WorkerId { text: Text { inner: \"w\" } }, info: Seq { items: [(Name { text: \
         Text { inner: \"a\" } }, Null), (Name { text: Text { inner: \"b\" } }, Number(-1))] } })",
    ),
    (
        Method::AddWorker,
        r#"{"info":[["b","x"],["a",true],["b",2]],"worker":"w"}"#,
        "AddWorker(AddWorker { worker: WorkerId { text: Text { inner: \"w\" } }, info: Seq { items: [(Name { text: \
         Text { inner: \"b\" } }, Text(Text { inner: \"x\" })), (Name { text: Text { inner: \"a\" } }, Truth(true)), \
         (Name { text: Text { inner: \"b\" } }, Number(2))] } })",
    ),
    (
        Method::AddTask,
        r#"{"task_id":"t","worker":"w"}"#,
        "AddTask(AddTask { worker: WorkerId { text: Text { inner: \"w\" } }, task_id: TaskId { text: Text { inner: \
         \"t\" } }, status: Pending, runnable: true, deps: None, new_deps: Seq { items: [] }, expl: None, resources: \
         Amounts { pairs: [] }, priority: 0, family: Name { text: Text { inner: \"\" } }, module: None, params: Seq \
         { items: [] }, accepts_messages: false, assistant: false, tracking_url: None, batchable: None, batch_id: \
         None, retry_policy: RetryPolicy { retry_count: None, disable_hard_timeout: None, disable_window: None } })",
    ),
    (
        Method::AddTask,
        "{\"accepts_messages\":true,\"assistant\":true,\"batch_id\":\"i\",\"batchable\":false,\"deps\":[\"d\"],\
         \"expl\":\"e\",\"family\":\"F\",\"module\":\"m\",\"new_deps\":[\"n\"],\"params\":{\"q\":\"2\",\
         \"p\":\"1\"},\"priority\":-5,\"resources\":{\"r\":2},\"retry_policy_dict\":{\"disable_hard_timeout\":0,\
         \"disable_window\":null,\"other\":[],\"retry_count\":1000000000000},\"runnable\":false,\
         \"status\":\"SUSPENDED\",\"task_id\":\"t\",\"tracking_url\":\"u\",\"worker\":\"w\"}",
        "AddTask(AddTask { worker: WorkerId { text: Text { inner: \"w\" } }, task_id: TaskId { text: Text { inner: \
         \"t\" } }, status: Suspended, runnable: false, deps: Some(Seq { items: [TaskId { text: Text { inner: \"d\" \
         } }] }), new_deps: Seq { items: [TaskId { text: Text { inner: \"n\" } }] }, expl: Some(Text { inner: \"e\" \
         }), resources: Amounts { pairs: [(Name { text: Text { inner: \"r\" } }, 2)] }, priority: -5, family: Name { \
         text: Text { inner: \"F\" } }, module: Some(Text { inner: \"m\" }), params: Seq { items: [(Name { text: \
         Text { inner: \"p\" } }, Text { inner: \"1\" }), (Name { text: Text { inner: \"q\" } }, Text { inner: \"2\" \
         })] }, accepts_messages: true, assistant: true, tracking_url: Some(Text { inner: \"u\" }), batchable: \
         Some(false), batch_id: Some(Text { inner: \"i\" }), retry_policy: RetryPolicy { retry_count: \
         Some(1000000000000), disable_hard_timeout: Some(0), disable_window: None } })",
    ),
];

#[test]
fn each_method_reads_its_arguments(rt: HostRuntime) -> Result<(), Fail> {
    for (method, payload, request) in &READ {
        let shown = answer_to(rt.alloc(), *method, payload)?;
        let expected = format!(in rt.alloc(); "Ok({request})")?;
        assert_eq!(rt; shown.as_str(), expected.as_str(), "{payload}");
    }
    Ok(())
}
