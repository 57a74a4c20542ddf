//! What each method refuses: an argument that has to be there and is missing, of another kind, or out of range. Of two faults
//! the first counts, in the order in which the method reads its arguments.

use super::refusal_of;
use crate::Method;
use std::process::Abort;
use std::test::Fail;

/// Methods of one argument.
static REFUSED_OF_ONE_ARGUMENT: [(Method, &[(&str, &str)]); 12] = [
    (
        Method::CountPending,
        &[
            (r#"{}"#, "missing worker"),
            (r#"{"worker":1}"#, "wrong kind worker"),
        ],
    ),
    (
        Method::DisableWorker,
        &[
            (r#"{}"#, "missing worker"),
            (r#"{"worker":1}"#, "wrong kind worker"),
        ],
    ),
    (
        Method::Ping,
        &[
            (r#"{}"#, "missing worker"),
            (r#"{"worker":1}"#, "wrong kind worker"),
        ],
    ),
    (
        Method::FetchError,
        &[
            (r#"{"worker":"w"}"#, "missing task_id"),
            (r#"{"task_id":["t"]}"#, "wrong kind task_id"),
        ],
    ),
    (
        Method::ForgiveFailures,
        &[
            (r#"{"worker":"w"}"#, "missing task_id"),
            (r#"{"task_id":["t"]}"#, "wrong kind task_id"),
        ],
    ),
    (
        Method::GetRunningTaskResources,
        &[
            (r#"{"worker":"w"}"#, "missing task_id"),
            (r#"{"task_id":["t"]}"#, "wrong kind task_id"),
        ],
    ),
    (
        Method::GetTaskProgressPercentage,
        &[
            (r#"{"worker":"w"}"#, "missing task_id"),
            (r#"{"task_id":["t"]}"#, "wrong kind task_id"),
        ],
    ),
    (
        Method::GetTaskStatusMessage,
        &[
            (r#"{"worker":"w"}"#, "missing task_id"),
            (r#"{"task_id":["t"]}"#, "wrong kind task_id"),
        ],
    ),
    (
        Method::MarkAsDone,
        &[
            (r#"{"worker":"w"}"#, "missing task_id"),
            (r#"{"task_id":["t"]}"#, "wrong kind task_id"),
        ],
    ),
    (
        Method::ReEnableTask,
        &[
            (r#"{"worker":"w"}"#, "missing task_id"),
            (r#"{"task_id":["t"]}"#, "wrong kind task_id"),
        ],
    ),
    (
        Method::TaskSearch,
        &[
            (r#"{"task_str":null}"#, "missing task_str"),
            (r#"{"task_str":true}"#, "wrong kind task_str"),
        ],
    ),
    (
        Method::WorkerList,
        &[(r#"{"include_running":0}"#, "wrong kind include_running")],
    ),
];

/// Methods that set something.
static REFUSED_OF_SETTERS: [(Method, &[(&str, &str)]); 4] = [
    (
        Method::SetTaskProgressPercentage,
        &[
            (r#"{"progress_percentage":1.5}"#, "missing task_id"),
            (r#"{"task_id":"t"}"#, "missing progress_percentage"),
            (
                r#"{"progress_percentage":1.5,"task_id":2}"#,
                "wrong kind task_id",
            ),
            (
                r#"{"progress_percentage":"1","task_id":"t"}"#,
                "wrong kind progress_percentage",
            ),
            (
                r#"{"progress_percentage":9223372036854775808,"task_id":"t"}"#,
                "out of range progress_percentage",
            ),
        ],
    ),
    (
        Method::SetTaskStatusMessage,
        &[
            (r#"{"status_message":1}"#, "missing task_id"),
            (r#"{"task_id":"t"}"#, "missing status_message"),
            (r#"{"status_message":1,"task_id":2}"#, "wrong kind task_id"),
            (
                r#"{"status_message":1,"task_id":"t"}"#,
                "wrong kind status_message",
            ),
        ],
    ),
    (
        Method::UpdateResource,
        &[
            (r#"{"amount":1.5}"#, "missing resource"),
            (r#"{"resource":"r"}"#, "missing amount"),
            (
                r#"{"amount":4294967296,"resource":1}"#,
                "wrong kind resource",
            ),
            (r#"{"amount":"1","resource":"r"}"#, "wrong kind amount"),
            (
                r#"{"amount":4294967296,"resource":"r"}"#,
                "out of range amount",
            ),
        ],
    ),
    (
        Method::UpdateResources,
        &[
            (r#"{"a":null}"#, "wrong kind a"),
            (r#"{"a":1,"b":"1"}"#, "wrong kind b"),
            (r#"{"a":-1}"#, "out of range a"),
            (r#"{"b":1.5,"a":4294967296}"#, "out of range a"),
            (r#"{"b":4294967296,"a":1.5}"#, "wrong kind a"),
        ],
    ),
];

/// Methods of workers, and the list of tasks.
static REFUSED_OF_WORKERS: [(Method, &[(&str, &str)]); 4] = [
    (
        Method::GetWork,
        &[
            (r#"{"assistant":1}"#, "missing worker"),
            (r#"{"assistant":1,"worker":2}"#, "wrong kind worker"),
            (
                r#"{"assistant":"true","worker":"w"}"#,
                "wrong kind assistant",
            ),
            (
                r#"{"current_tasks":"t","worker":"w"}"#,
                "wrong kind current_tasks",
            ),
            (
                r#"{"current_tasks":["t",null],"worker":"w"}"#,
                "wrong kind current_tasks",
            ),
            (
                r#"{"assistant":1,"current_tasks":1,"worker":"w"}"#,
                "wrong kind assistant",
            ),
        ],
    ),
    (
        Method::TaskList,
        &[
            (r#"{"status":1}"#, "wrong kind status"),
            (r#"{"status":"done"}"#, "out of range status"),
            (r#"{"status":"SUSPENDED","limit":1}"#, "out of range status"),
            (r#"{"upstream_status":false}"#, "wrong kind upstream_status"),
            (r#"{"limit":"false","search":1}"#, "wrong kind limit"),
            (r#"{"max_shown_tasks":-1,"search":1}"#, "wrong kind search"),
            (r#"{"max_shown_tasks":"1"}"#, "wrong kind max_shown_tasks"),
            (r#"{"max_shown_tasks":-1}"#, "out of range max_shown_tasks"),
            (
                r#"{"max_shown_tasks":9223372036854775808}"#,
                "out of range max_shown_tasks",
            ),
        ],
    ),
    (
        Method::AddTaskBatcher,
        &[
            (r#"{"task_family":1}"#, "missing worker"),
            (r#"{"batched_args":1,"worker":"w"}"#, "missing task_family"),
            (
                r#"{"max_batch_size":0,"task_family":"F","worker":"w"}"#,
                "missing batched_args",
            ),
            (
                r#"{"batched_args":["a"],"task_family":1,"worker":2}"#,
                "wrong kind worker",
            ),
            (
                r#"{"batched_args":["a"],"task_family":1,"worker":"w"}"#,
                "wrong kind task_family",
            ),
            (
                r#"{"batched_args":{"a":1},"max_batch_size":0,"task_family":"F","worker":"w"}"#,
                "wrong kind batched_args",
            ),
            (
                r#"{"batched_args":["a"],"max_batch_size":1.0,"task_family":"F","worker":"w"}"#,
                "wrong kind max_batch_size",
            ),
            (
                r#"{"batched_args":["a"],"max_batch_size":0,"task_family":"F","worker":"w"}"#,
                "out of range max_batch_size",
            ),
        ],
    ),
    (
        Method::AddWorker,
        &[
            (r#"{"info":1}"#, "missing worker"),
            (r#"{"info":null,"worker":"w"}"#, "missing info"),
            (r#"{"info":1,"worker":2}"#, "wrong kind worker"),
            (r#"{"info":"i","worker":"w"}"#, "wrong kind info"),
            (r#"{"info":["i"],"worker":"w"}"#, "wrong kind info"),
            (r#"{"info":[["i"]],"worker":"w"}"#, "wrong kind info"),
            (r#"{"info":[["i",1,2]],"worker":"w"}"#, "wrong kind info"),
            (
                r#"{"info":[[1,9223372036854775808]],"worker":"w"}"#,
                "wrong kind info",
            ),
            (
                r#"{"info":[["i",["j",1]]],"worker":"w"}"#,
                "wrong kind info",
            ),
            (r#"{"info":{"i":{}},"worker":"w"}"#, "wrong kind info"),
            (r#"{"info":{"i":1.5},"worker":"w"}"#, "wrong kind info"),
            (
                r#"{"info":{"j":[],"i":9223372036854775808},"worker":"w"}"#,
                "out of range info",
            ),
            (
                r#"{"info":[["j",9223372036854775808],["i"]],"worker":"w"}"#,
                "out of range info",
            ),
        ],
    ),
];

/// The first arguments of `add_task`.
static REFUSED_OF_ADD_TASK: [(Method, &[(&str, &str)]); 1] = [(
    Method::AddTask,
    &[
        (r#"{"task_id":1}"#, "missing worker"),
        (r#"{"status":1,"worker":"w"}"#, "missing task_id"),
        (r#"{"task_id":1,"worker":2}"#, "wrong kind worker"),
        (
            r#"{"status":1,"task_id":2,"worker":"w"}"#,
            "wrong kind task_id",
        ),
        (
            r#"{"status":1,"task_id":"t","worker":"w"}"#,
            "wrong kind status",
        ),
        (
            r#"{"runnable":1,"status":"BATCH_RUNNING","task_id":"t","worker":"w"}"#,
            "out of range status",
        ),
        (
            r#"{"status":"","task_id":"t","worker":"w"}"#,
            "out of range status",
        ),
        (
            r#"{"deps":1,"runnable":1,"task_id":"t","worker":"w"}"#,
            "wrong kind runnable",
        ),
        (
            r#"{"deps":"d","new_deps":1,"task_id":"t","worker":"w"}"#,
            "wrong kind deps",
        ),
        (
            r#"{"expl":1,"new_deps":[1],"task_id":"t","worker":"w"}"#,
            "wrong kind new_deps",
        ),
        (
            r#"{"expl":[],"resources":1,"task_id":"t","worker":"w"}"#,
            "wrong kind expl",
        ),
        (
            r#"{"priority":1.5,"resources":{"r":null},"task_id":"t","worker":"w"}"#,
            "wrong kind resources",
        ),
        (
            r#"{"resources":{"s":"1","r":4294967296},"task_id":"t","worker":"w"}"#,
            "out of range resources",
        ),
        (
            r#"{"family":1,"priority":1.5,"task_id":"t","worker":"w"}"#,
            "wrong kind priority",
        ),
    ],
)];

/// The later arguments of `add_task`.
static REFUSED_OF_ADD_TASK_LATER: [(Method, &[(&str, &str)]); 1] = [(
    Method::AddTask,
    &[
        (
            r#"{"priority":9223372036854775808,"task_id":"t","worker":"w"}"#,
            "out of range priority",
        ),
        (
            r#"{"family":1,"module":1,"task_id":"t","worker":"w"}"#,
            "wrong kind family",
        ),
        (
            r#"{"module":1,"params":1,"task_id":"t","worker":"w"}"#,
            "wrong kind module",
        ),
        (
            r#"{"accepts_messages":1,"params":{"p":1},"task_id":"t","worker":"w"}"#,
            "wrong kind params",
        ),
        (
            r#"{"params":[["p","1"]],"task_id":"t","worker":"w"}"#,
            "wrong kind params",
        ),
        (
            r#"{"accepts_messages":1,"assistant":1,"task_id":"t","worker":"w"}"#,
            "wrong kind accepts_messages",
        ),
        (
            r#"{"assistant":1,"tracking_url":1,"task_id":"t","worker":"w"}"#,
            "wrong kind assistant",
        ),
        (
            r#"{"batchable":1,"tracking_url":1,"task_id":"t","worker":"w"}"#,
            "wrong kind tracking_url",
        ),
        (
            r#"{"batch_id":1,"batchable":1,"task_id":"t","worker":"w"}"#,
            "wrong kind batchable",
        ),
        (
            r#"{"batch_id":1,"retry_policy_dict":1,"task_id":"t","worker":"w"}"#,
            "wrong kind batch_id",
        ),
        (
            r#"{"retry_policy_dict":[],"task_id":"t","worker":"w"}"#,
            "wrong kind retry_policy_dict",
        ),
        (
            r#"{"retry_policy_dict":{"retry_count":"1"},"task_id":"t","worker":"w"}"#,
            "wrong kind retry_policy_dict",
        ),
        (
            r#"{"retry_policy_dict":{"disable_window":1000000000001},"task_id":"t","worker":"w"}"#,
            "out of range retry_policy_dict",
        ),
        (
            r#"{"retry_policy_dict":{"disable_hard_timeout":1.5,"retry_count":-1},"task_id":"t","worker":"w"}"#,
            "out of range retry_policy_dict",
        ),
        (
            r#"{"retry_policy_dict":{"disable_hard_timeout":1.5,"disable_window":-1},"task_id":"t","worker":"w"}"#,
            "wrong kind retry_policy_dict",
        ),
    ],
)];

/// Compares what is said of each payload with the words of its refusal.
fn assert_refused<R: AllocGlobal + Abort>(
    rt: &R,
    table: &[(Method, &[(&str, &str)])],
) -> Result<(), Fail> {
    for (method, rows) in table {
        for (payload, expected) in *rows {
            let told = refusal_of(rt.alloc(), *method, payload)?;
            assert_eq!(rt; told.as_str(), *expected, "{payload}");
        }
    }
    Ok(())
}

#[test]
fn methods_of_one_argument_tell_their_first_refusal(rt: HostRuntime) -> Result<(), Fail> {
    assert_refused(&rt, &REFUSED_OF_ONE_ARGUMENT)
}

#[test]
fn setters_tell_their_first_refusal(rt: HostRuntime) -> Result<(), Fail> {
    assert_refused(&rt, &REFUSED_OF_SETTERS)
}

#[test]
fn methods_of_workers_tell_their_first_refusal(rt: HostRuntime) -> Result<(), Fail> {
    assert_refused(&rt, &REFUSED_OF_WORKERS)
}

#[test]
fn add_task_tells_its_first_refusal(rt: HostRuntime) -> Result<(), Fail> {
    assert_refused(&rt, &REFUSED_OF_ADD_TASK)?;
    assert_refused(&rt, &REFUSED_OF_ADD_TASK_LATER)
}
