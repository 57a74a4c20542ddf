//! Sessions in which work is asked for, call by call.
use super::sessions::{Call, assert_answered, assert_answered_at};
use lg_base::Moment;
use std::test::Fail;

/// A worker declares three tasks that depend on each other, and is given one after another.
const CHAIN: [Call; 12] = [
    (
        "add_worker",
        r#"{"worker":"w","info":[["workers",1],["host","h"],["pid",7]]}"#,
        "null",
    ),
    (
        "add_task",
        r#"{"worker":"w","task_id":"C__99914b932b","status":"PENDING","deps":["B__99914b932b"],"runnable":true,"priority":0,"resources":{},"params":{},"param_visibilities":{},"family":"C","module":"m","batchable":false,"retry_policy_dict":{"retry_count":null,"disable_hard_timeout":null,"disable_window":null},"accepts_messages":false,"owners":[]}"#,
        "null",
    ),
    (
        "add_task",
        r#"{"worker":"w","task_id":"B__99914b932b","status":"PENDING","deps":["A__99914b932b"],"runnable":true,"priority":0,"resources":{},"params":{},"param_visibilities":{},"family":"B","module":"m","batchable":false,"retry_policy_dict":{"retry_count":null,"disable_hard_timeout":null,"disable_window":null},"accepts_messages":false,"owners":[]}"#,
        "null",
    ),
    (
        "add_task",
        r#"{"worker":"w","task_id":"A__99914b932b","status":"PENDING","deps":[],"runnable":true,"priority":0,"resources":{},"params":{},"param_visibilities":{},"family":"A","module":"m","batchable":false,"retry_policy_dict":{"retry_count":null,"disable_hard_timeout":null,"disable_window":null},"accepts_messages":false,"owners":[]}"#,
        "null",
    ),
    (
        "get_work",
        r#"{"worker":"w","host":"h","assistant":false,"current_tasks":[]}"#,
        r#"{"n_pending_last_scheduled":3,"n_pending_tasks":3,"n_unique_pending":3,"running_tasks":[],"task_family":"A","task_id":"A__99914b932b","task_module":"m","task_params":{},"worker_state":"active"}"#,
    ),
    (
        "add_task",
        r#"{"worker":"w","task_id":"A__99914b932b","status":"DONE"}"#,
        "null",
    ),
    (
        "get_work",
        r#"{"worker":"w","host":"h","assistant":false,"current_tasks":[]}"#,
        r#"{"n_pending_last_scheduled":2,"n_pending_tasks":2,"n_unique_pending":2,"running_tasks":[],"task_family":"B","task_id":"B__99914b932b","task_module":"m","task_params":{},"worker_state":"active"}"#,
    ),
    (
        "add_task",
        r#"{"worker":"w","task_id":"B__99914b932b","status":"DONE"}"#,
        "null",
    ),
    (
        "get_work",
        r#"{"worker":"w","host":"h","assistant":false,"current_tasks":[]}"#,
        r#"{"n_pending_last_scheduled":1,"n_pending_tasks":1,"n_unique_pending":1,"running_tasks":[],"task_family":"C","task_id":"C__99914b932b","task_module":"m","task_params":{},"worker_state":"active"}"#,
    ),
    (
        "add_task",
        r#"{"worker":"w","task_id":"C__99914b932b","status":"DONE"}"#,
        "null",
    ),
    (
        "get_work",
        r#"{"worker":"w","host":"h","assistant":false,"current_tasks":[]}"#,
        r#"{"n_pending_last_scheduled":0,"n_pending_tasks":0,"n_unique_pending":0,"running_tasks":[],"task_id":null,"worker_state":"active"}"#,
    ),
    ("stop", "{}", "null"),
];

/// A reply was lost: the task is given again where the worker tells what it runs, in a paused scheduler too, which gives
/// nothing anew.
const LOST: [Call; 15] = [
    (
        "add_worker",
        r#"{"worker":"w","info":[["workers",1],["host","h"],["pid",7]]}"#,
        "null",
    ),
    (
        "add_task",
        r#"{"worker":"w","task_id":"C__99914b932b","status":"PENDING","deps":["B__99914b932b"],"runnable":true,"priority":0,"resources":{},"params":{},"param_visibilities":{},"family":"C","module":"m","batchable":false,"retry_policy_dict":{"retry_count":null,"disable_hard_timeout":null,"disable_window":null},"accepts_messages":false,"owners":[]}"#,
        "null",
    ),
    (
        "add_task",
        r#"{"worker":"w","task_id":"B__99914b932b","status":"PENDING","deps":["A__99914b932b"],"runnable":true,"priority":0,"resources":{},"params":{},"param_visibilities":{},"family":"B","module":"m","batchable":false,"retry_policy_dict":{"retry_count":null,"disable_hard_timeout":null,"disable_window":null},"accepts_messages":false,"owners":[]}"#,
        "null",
    ),
    (
        "add_task",
        r#"{"worker":"w","task_id":"A__99914b932b","status":"PENDING","deps":[],"runnable":true,"priority":0,"resources":{},"params":{},"param_visibilities":{},"family":"A","module":"m","batchable":false,"retry_policy_dict":{"retry_count":null,"disable_hard_timeout":null,"disable_window":null},"accepts_messages":false,"owners":[]}"#,
        "null",
    ),
    (
        "get_work",
        r#"{"worker":"w","host":"h","assistant":false,"current_tasks":[]}"#,
        r#"{"n_pending_last_scheduled":3,"n_pending_tasks":3,"n_unique_pending":3,"running_tasks":[],"task_family":"A","task_id":"A__99914b932b","task_module":"m","task_params":{},"worker_state":"active"}"#,
    ),
    (
        "get_work",
        r#"{"worker":"w","host":"h","assistant":false,"current_tasks":[]}"#,
        r#"{"n_pending_last_scheduled":2,"n_pending_tasks":2,"n_unique_pending":2,"running_tasks":[{"info":{"host":"h","pid":7,"workers":1},"task_id":"A__99914b932b","worker":"w"}],"task_family":"A","task_id":"A__99914b932b","task_module":"m","task_params":{},"worker_state":"active"}"#,
    ),
    (
        "get_work",
        r#"{"worker":"w","host":"h","assistant":false}"#,
        r#"{"n_pending_last_scheduled":2,"n_pending_tasks":2,"n_unique_pending":2,"running_tasks":[{"info":{"host":"h","pid":7,"workers":1},"task_id":"A__99914b932b","worker":"w"}],"task_id":null,"worker_state":"active"}"#,
    ),
    (
        "get_work",
        r#"{"worker":"w","current_tasks":["A__99914b932b"]}"#,
        r#"{"n_pending_last_scheduled":2,"n_pending_tasks":2,"n_unique_pending":2,"running_tasks":[{"info":{"host":"h","pid":7,"workers":1},"task_id":"A__99914b932b","worker":"w"}],"task_id":null,"worker_state":"active"}"#,
    ),
    ("pause", "{}", "null"),
    (
        "get_work",
        r#"{"worker":"w","host":"h","assistant":false,"current_tasks":[]}"#,
        r#"{"n_pending_last_scheduled":2,"n_pending_tasks":2,"n_unique_pending":2,"running_tasks":[{"info":{"host":"h","pid":7,"workers":1},"task_id":"A__99914b932b","worker":"w"}],"task_family":"A","task_id":"A__99914b932b","task_module":"m","task_params":{},"worker_state":"active"}"#,
    ),
    (
        "add_task",
        r#"{"worker":"w","task_id":"A__99914b932b","status":"DONE"}"#,
        "null",
    ),
    (
        "get_work",
        r#"{"worker":"w","host":"h","assistant":false,"current_tasks":[]}"#,
        r#"{"n_pending_last_scheduled":2,"n_pending_tasks":2,"n_unique_pending":2,"running_tasks":[],"task_id":null,"worker_state":"active"}"#,
    ),
    ("unpause", "{}", "null"),
    (
        "get_work",
        r#"{"worker":"w","host":"h","assistant":false,"current_tasks":[]}"#,
        r#"{"n_pending_last_scheduled":2,"n_pending_tasks":2,"n_unique_pending":2,"running_tasks":[],"task_family":"B","task_id":"B__99914b932b","task_module":"m","task_params":{},"worker_state":"active"}"#,
    ),
    ("stop", "{}", "null"),
];

/// A disabled worker gets nothing, not even what it lost; one that is unknown has nothing to do, and isn't made by the question.
const SHUT_OUT: [Call; 9] = [
    ("add_task", r#"{"worker":"w2","task_id":"t"}"#, "null"),
    (
        "get_work",
        r#"{"worker":"w2"}"#,
        r#"{"n_pending_last_scheduled":1,"n_pending_tasks":1,"n_unique_pending":1,"running_tasks":[],"task_family":"","task_id":"t","task_module":null,"task_params":{},"worker_state":"active"}"#,
    ),
    ("ping", r#"{"worker":"w1"}"#, r#"{"rpc_messages":[]}"#),
    ("disable_worker", r#"{"worker":"w2"}"#, "null"),
    (
        "get_work",
        r#"{"worker":"w2","current_tasks":[]}"#,
        r#"{"n_pending_last_scheduled":0,"n_pending_tasks":0,"n_unique_pending":0,"running_tasks":[],"task_id":null,"worker_state":"disabled"}"#,
    ),
    (
        "count_pending",
        r#"{"worker":"w2"}"#,
        r#"{"n_pending_last_scheduled":0,"n_pending_tasks":0,"n_unique_pending":0,"running_tasks":[],"worker_state":"disabled"}"#,
    ),
    (
        "count_pending",
        r#"{"worker":"w3"}"#,
        r#"{"n_pending_last_scheduled":0,"n_pending_tasks":0,"n_unique_pending":0,"running_tasks":[],"worker_state":"active"}"#,
    ),
    (
        "get_work",
        r#"{"worker":"w1"}"#,
        r#"{"n_pending_last_scheduled":0,"n_pending_tasks":0,"n_unique_pending":0,"running_tasks":[],"task_id":null,"worker_state":"active"}"#,
    ),
    ("stop", "{}", "null"),
];

/// Of two tasks that are added at one moment with one priority the first is given.
const FIRST: [Call; 5] = [
    ("add_task", r#"{"worker":"w","task_id":"x"}"#, "null"),
    ("add_task", r#"{"worker":"w","task_id":"y"}"#, "null"),
    (
        "get_work",
        r#"{"worker":"w"}"#,
        r#"{"n_pending_last_scheduled":2,"n_pending_tasks":2,"n_unique_pending":2,"running_tasks":[],"task_family":"","task_id":"x","task_module":null,"task_params":{},"worker_state":"active"}"#,
    ),
    (
        "count_pending",
        r#"{"worker":"w"}"#,
        r#"{"n_pending_last_scheduled":1,"n_pending_tasks":1,"n_unique_pending":1,"running_tasks":[{"info":{},"task_id":"x","worker":"w"}],"worker_state":"active"}"#,
    ),
    ("stop", "{}", "null"),
];

/// A task that comes first keeps its resource for a worker that asked less than a minute ago.
const KEPT: [Call; 8] = [
    (
        "get_work",
        r#"{"worker":"w2"}"#,
        r#"{"n_pending_last_scheduled":0,"n_pending_tasks":0,"n_unique_pending":0,"running_tasks":[],"task_id":null,"worker_state":"active"}"#,
    ),
    (
        "add_task",
        r#"{"worker":"w2","task_id":"high","priority":9,"resources":{"db":1}}"#,
        "null",
    ),
    (
        "add_task",
        r#"{"worker":"w1","task_id":"low","priority":1,"resources":{"db":1}}"#,
        "null",
    ),
    (
        "get_work",
        r#"{"worker":"w1"}"#,
        r#"{"n_pending_last_scheduled":1,"n_pending_tasks":1,"n_unique_pending":1,"running_tasks":[],"task_id":null,"worker_state":"active"}"#,
    ),
    ("ping", r#"{"worker":"w1"}"#, r#"{"rpc_messages":[]}"#),
    (
        "get_work",
        r#"{"worker":"w1"}"#,
        r#"{"n_pending_last_scheduled":1,"n_pending_tasks":1,"n_unique_pending":1,"running_tasks":[],"task_id":null,"worker_state":"active"}"#,
    ),
    (
        "get_work",
        r#"{"worker":"w1"}"#,
        r#"{"n_pending_last_scheduled":1,"n_pending_tasks":1,"n_unique_pending":1,"running_tasks":[],"task_family":"","task_id":"low","task_module":null,"task_params":{},"worker_state":"active"}"#,
    ),
    ("stop", "{}", "null"),
];

/// The moments of these calls, in milliseconds.
const KEPT_AT: [Moment; 8] = [
    Moment(1_000),
    Moment(2_000),
    Moment(3_000),
    Moment(4_000),
    Moment(30_000),
    Moment(60_999),
    Moment(61_000),
    Moment(61_000),
];

/// Tasks wait while their resources are over the limit, which is 1 where none is set.
const LIMITS: [Call; 9] = [
    (
        "update_resource",
        r#"{"resource":"gpu","amount":0}"#,
        "true",
    ),
    (
        "add_task",
        r#"{"worker":"w","task_id":"t","resources":{"gpu":1}}"#,
        "null",
    ),
    (
        "add_task",
        r#"{"worker":"w","task_id":"u","resources":{"db":2}}"#,
        "null",
    ),
    (
        "get_work",
        r#"{"worker":"w"}"#,
        r#"{"n_pending_last_scheduled":2,"n_pending_tasks":2,"n_unique_pending":2,"running_tasks":[],"task_id":null,"worker_state":"active"}"#,
    ),
    (
        "update_resource",
        r#"{"resource":"gpu","amount":1}"#,
        "true",
    ),
    (
        "get_work",
        r#"{"worker":"w"}"#,
        r#"{"n_pending_last_scheduled":2,"n_pending_tasks":2,"n_unique_pending":2,"running_tasks":[],"task_family":"","task_id":"t","task_module":null,"task_params":{},"worker_state":"active"}"#,
    ),
    ("update_resource", r#"{"resource":"db","amount":2}"#, "true"),
    (
        "get_work",
        r#"{"worker":"w"}"#,
        r#"{"n_pending_last_scheduled":1,"n_pending_tasks":1,"n_unique_pending":1,"running_tasks":[{"info":{},"task_id":"t","worker":"w"}],"task_family":"","task_id":"u","task_module":null,"task_params":{},"worker_state":"active"}"#,
    ),
    ("stop", "{}", "null"),
];

/// A task that names two workers counts for both, as the last one that was scheduled for the second, and as the only one of
/// none.
const SHARED: [Call; 5] = [
    ("add_task", r#"{"worker":"w1","task_id":"t"}"#, "null"),
    ("add_task", r#"{"worker":"w2","task_id":"t"}"#, "null"),
    (
        "count_pending",
        r#"{"worker":"w1"}"#,
        r#"{"n_pending_last_scheduled":0,"n_pending_tasks":1,"n_unique_pending":0,"running_tasks":[],"worker_state":"active"}"#,
    ),
    (
        "count_pending",
        r#"{"worker":"w2"}"#,
        r#"{"n_pending_last_scheduled":1,"n_pending_tasks":1,"n_unique_pending":0,"running_tasks":[],"worker_state":"active"}"#,
    ),
    ("stop", "{}", "null"),
];

/// An assistant is given a task that names another worker, where anyone may run it, and is told of as an assistant.
const ASSISTANT: [Call; 7] = [
    ("update_resource", r#"{"resource":"db","amount":1}"#, "true"),
    (
        "add_task",
        r#"{"worker":"w1","task_id":"s","resources":{"gpu":1},"runnable":false}"#,
        "null",
    ),
    (
        "get_work",
        r#"{"worker":"w2","assistant":true}"#,
        r#"{"n_pending_last_scheduled":0,"n_pending_tasks":0,"n_unique_pending":0,"running_tasks":[],"task_id":null,"worker_state":"active"}"#,
    ),
    (
        "add_task",
        r#"{"worker":"w1","task_id":"t","resources":{"db":1}}"#,
        "null",
    ),
    (
        "get_work",
        r#"{"worker":"w2","assistant":true}"#,
        r#"{"n_pending_last_scheduled":0,"n_pending_tasks":0,"n_unique_pending":0,"running_tasks":[],"task_family":"","task_id":"t","task_module":null,"task_params":{},"worker_state":"active"}"#,
    ),
    (
        "count_pending",
        r#"{"worker":"w1"}"#,
        r#"{"n_pending_last_scheduled":0,"n_pending_tasks":0,"n_unique_pending":0,"running_tasks":[{"info":{"assistant":true},"task_id":"t","worker":"w2"}],"worker_state":"active"}"#,
    ),
    ("stop", "{}", "null"),
];

/// What is shown of three tasks, of a limit, and of an error.
const SHOWN: [Call; 12] = [
    (
        "add_task",
        r#"{"worker":"w","task_id":"C__99914b932b","status":"PENDING","deps":["B__99914b932b"],"runnable":true,"priority":0,"resources":{},"params":{},"param_visibilities":{},"family":"C","module":"m","batchable":false,"retry_policy_dict":{"retry_count":null,"disable_hard_timeout":null,"disable_window":null},"accepts_messages":false,"owners":[]}"#,
        "null",
    ),
    (
        "add_task",
        r#"{"worker":"w","task_id":"B__99914b932b","status":"PENDING","deps":["A__99914b932b"],"runnable":true,"priority":0,"resources":{},"params":{},"param_visibilities":{},"family":"B","module":"m","batchable":false,"retry_policy_dict":{"retry_count":null,"disable_hard_timeout":null,"disable_window":null},"accepts_messages":false,"owners":[]}"#,
        "null",
    ),
    (
        "add_task",
        r#"{"worker":"w","task_id":"A__99914b932b","status":"PENDING","deps":[],"runnable":true,"priority":0,"resources":{},"params":{},"param_visibilities":{},"family":"A","module":"m","batchable":false,"retry_policy_dict":{"retry_count":null,"disable_hard_timeout":null,"disable_window":null},"accepts_messages":false,"owners":[]}"#,
        "null",
    ),
    (
        "status_counts",
        "{}",
        r#"{"BATCH_RUNNING":0,"DISABLED":0,"DONE":0,"FAILED":0,"PENDING":3,"RUNNING":0,"UNKNOWN":0}"#,
    ),
    (
        "update_resource",
        r#"{"resource":"gpu","amount":2}"#,
        "true",
    ),
    (
        "resource_list",
        "{}",
        r#"[{"name":"gpu","num_consumer":0,"num_total":2,"num_used":0,"running":{}}]"#,
    ),
    ("resources", "{}", r#"{"gpu":{"total":2,"used":0}}"#),
    ("task_search", r#"{"task_str":"zz"}"#, "{}"),
    (
        "task_search",
        r#"{"task_str":"B"}"#,
        r#"{"PENDING":{"B__99914b932b":{"accepts_messages":false,"display_name":"B()","last_updated":5,"name":"B","params":{},"priority":0,"progress_percentage":null,"resources":{},"resources_running":null,"start_time":5,"status":"PENDING","status_message":null,"time_running":null,"tracking_url":null,"worker_running":null,"workers":["w"]}}}"#,
    ),
    (
        "fetch_error",
        r#"{"task_id":"u"}"#,
        r#"{"error":"","taskId":"u"}"#,
    ),
    (
        "fetch_error",
        r#"{"task_id":"A__99914b932b"}"#,
        r#"{"displayName":"A()","error":"","taskFamily":"A","taskId":"A__99914b932b","taskModule":"m","taskParams":{}}"#,
    ),
    ("stop", "{}", "null"),
];

/// Tasks that wait for a disabled one, in a circle too, don't count as work that is left.
const HOPELESS: [Call; 6] = [
    (
        "add_task",
        r#"{"worker":"w","task_id":"a","status":"DISABLED"}"#,
        "null",
    ),
    (
        "add_task",
        r#"{"worker":"w","task_id":"b","deps":["a","c"]}"#,
        "null",
    ),
    (
        "add_task",
        r#"{"worker":"w","task_id":"c","deps":["b"]}"#,
        "null",
    ),
    ("add_task", r#"{"worker":"w","task_id":"d"}"#, "null"),
    (
        "count_pending",
        r#"{"worker":"w"}"#,
        r#"{"n_pending_last_scheduled":1,"n_pending_tasks":1,"n_unique_pending":1,"running_tasks":[],"worker_state":"active"}"#,
    ),
    ("stop", "{}", "null"),
];

#[test]
fn a_chain_of_tasks_is_run(rt: HostRuntime) -> Result<(), Fail> {
    assert_answered(&rt, rt.alloc(), &CHAIN)
}

#[test]
fn a_lost_task_is_given_again(rt: HostRuntime) -> Result<(), Fail> {
    assert_answered(&rt, rt.alloc(), &LOST)
}

#[test]
fn a_disabled_worker_gets_nothing(rt: HostRuntime) -> Result<(), Fail> {
    assert_answered(&rt, rt.alloc(), &SHUT_OUT)
}

#[test]
fn a_task_counts_for_each_worker_that_it_names(rt: HostRuntime) -> Result<(), Fail> {
    assert_answered(&rt, rt.alloc(), &SHARED)
}

#[test]
fn the_first_of_two_is_given(rt: HostRuntime) -> Result<(), Fail> {
    assert_answered(&rt, rt.alloc(), &FIRST)
}

#[test]
fn limits_are_kept(rt: HostRuntime) -> Result<(), Fail> {
    assert_answered(&rt, rt.alloc(), &LIMITS)
}

#[test]
fn assistants_are_given_what_anyone_may_run(rt: HostRuntime) -> Result<(), Fail> {
    assert_answered(&rt, rt.alloc(), &ASSISTANT)
}

#[test]
fn tasks_and_limits_are_shown(rt: HostRuntime) -> Result<(), Fail> {
    assert_answered(&rt, rt.alloc(), &SHOWN)
}

#[test]
fn what_waits_for_a_disabled_task_is_not_counted(rt: HostRuntime) -> Result<(), Fail> {
    assert_answered(&rt, rt.alloc(), &HOPELESS)
}

#[test]
fn a_resource_is_kept_for_an_active_worker(rt: HostRuntime) -> Result<(), Fail> {
    assert_answered_at(&rt, rt.alloc(), &KEPT_AT, &KEPT)
}
