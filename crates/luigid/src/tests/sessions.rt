//! Sessions of a user, call by call.
use super::{PLAIN, Script, assert_served};
use crate::audit::LifeEnd;
use lg_base::Moment;
use std::alloc::{AllocError, Global};
use std::process::Abort;
use std::sync::Wait;
use std::test::Fail;

/// A call: its method, its payload, and what stands under `response`.
pub(super) type Call = (&'static str, &'static str, &'static str);

/// Three tasks that depend on each other are declared and reported, and one is forgiven.
const CHAIN: [Call; 9] = [
    (
        "add_worker",
        r#"{"worker":"w","info":[["workers",1]]}"#,
        "null",
    ),
    ("add_task", r#"{"worker":"w","task_id":"a"}"#, "null"),
    (
        "add_task",
        r#"{"worker":"w","task_id":"b","deps":["a"]}"#,
        "null",
    ),
    (
        "add_task",
        r#"{"worker":"w","task_id":"c","deps":["a","b"]}"#,
        "null",
    ),
    (
        "add_task",
        r#"{"worker":"w","task_id":"a","status":"DONE"}"#,
        "null",
    ),
    (
        "add_task",
        r#"{"worker":"w","task_id":"b","status":"FAILED","expl":"no disk"}"#,
        "null",
    ),
    (
        "forgive_failures",
        r#"{"task_id":"b"}"#,
        r#"{"status":"PENDING","task_id":"b"}"#,
    ),
    (
        "forgive_failures",
        r#"{"task_id":"u"}"#,
        r#"{"status":null,"task_id":"u"}"#,
    ),
    ("stop", "{}", "null"),
];

/// The calls that set or tell one thing, each once.
const SMALL: [Call; 14] = [
    ("is_pause_enabled", "{}", r#"{"enabled":true}"#),
    ("pause", "{}", "null"),
    ("is_paused", "{}", r#"{"paused":true}"#),
    ("unpause", "{}", "null"),
    ("is_paused", "{}", r#"{"paused":false}"#),
    ("has_task_history", "{}", "false"),
    ("announce_scheduling_failure", "{}", "null"),
    ("ping", r#"{"worker":"w"}"#, r#"{"rpc_messages":[]}"#),
    (
        "update_resource",
        r#"{"resource":"gpu","amount":-1}"#,
        "false",
    ),
    ("update_resources", r#"{"gpu":2,"disk":1}"#, "null"),
    (
        "mark_as_done",
        r#"{"task_id":"u"}"#,
        r#"{"status":null,"task_id":"u"}"#,
    ),
    (
        "add_task",
        r#"{"worker":"w","task_id":"t","status":"FAILED"}"#,
        "null",
    ),
    (
        "mark_as_done",
        r#"{"task_id":"t"}"#,
        r#"{"status":"DONE","task_id":"t"}"#,
    ),
    ("stop", "{}", "null"),
];

/// A worker that is disabled makes no task.
const SHUT_OUT: [Call; 4] = [
    ("disable_worker", r#"{"worker":"w"}"#, "null"),
    ("add_task", r#"{"worker":"w","task_id":"t"}"#, "null"),
    (
        "forgive_failures",
        r#"{"task_id":"t"}"#,
        r#"{"status":null,"task_id":"t"}"#,
    ),
    ("stop", "{}", "null"),
];

/// The bytes of a call.
fn message(alloc: Global, method: &str, payload: &str) -> Result<String, AllocError> {
    let length = payload.len().saturating_add(5);
    format!(in alloc;
        "POST /api/{method} HTTP/1.1\r\nHost: x\r\nContent-Length: {length}\r\n\r\ndata={payload}"
    )
}

/// The bytes of its response; that to a stop is the last.
fn response(alloc: Global, method: &str, reply: &str) -> Result<String, AllocError> {
    let length = reply.len().saturating_add(13);
    let close = if method == "stop" {
        "Connection: close\r\n"
    } else {
        ""
    };
    format!(in alloc;
        "HTTP/1.1 200 OK\r\nContent-Type: application/json\r\nContent-Length: {length}\r\n{close}\r\n{{\"response\":{reply}}}"
    )
}

/// Makes the calls over one link, and compares each response to the byte. Each call is entered.
pub(super) fn assert_answered<R: Wait + Abort>(
    rt: &R,
    alloc: Global,
    calls: &[Call],
) -> Result<(), Fail> {
    assert_answered_at(rt, alloc, &[Moment(5)], calls)
}

/// The same at these moments, one a call; behind them the last stays.
pub(super) fn assert_answered_at<R: Wait + Abort>(
    rt: &R,
    alloc: Global,
    moments: &'static [Moment],
    calls: &[Call],
) -> Result<(), Fail> {
    let mut input = String::new(alloc);
    let mut output = String::new(alloc);
    for (method, payload, reply) in calls {
        input.push_str(&message(alloc, method, payload)?)?;
        output.push_str(&response(alloc, method, reply)?)?;
    }
    let script = Script {
        inputs: &[input.as_bytes()],
        moments,
        ..PLAIN
    };
    assert_served(
        rt,
        alloc,
        &script,
        &[output.as_bytes()],
        calls.len(),
        LifeEnd::Stop,
    )
}

#[test]
fn a_chain_of_tasks_is_declared_and_reported(rt: HostRuntime) -> Result<(), Fail> {
    assert_answered(&rt, rt.alloc(), &CHAIN)
}

#[test]
fn small_calls_have_their_replies(rt: HostRuntime) -> Result<(), Fail> {
    assert_answered(&rt, rt.alloc(), &SMALL)
}

#[test]
fn a_disabled_worker_makes_no_task(rt: HostRuntime) -> Result<(), Fail> {
    assert_answered(&rt, rt.alloc(), &SHUT_OUT)
}
