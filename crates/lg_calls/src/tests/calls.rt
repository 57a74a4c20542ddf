//! Calls by the name of their method and their payload.

use super::{answer_by_name, answer_to};
use crate::Method;
use std::test::Fail;

/// Payloads, and what comes of them as it shows: of fields of one name the last counts, and a method without arguments looks
/// at its payload all the same.
static PAYLOADS: [(Method, &str, &str); 8] = [
    (Method::Ping, "[]", "Err(Refused(NotJson))"),
    (Method::Pause, "[]", "Err(Refused(NotJson))"),
    (Method::Pause, "", "Err(Refused(NotJson))"),
    (Method::Pause, r#" {"worker":1} "#, "Ok(Pause)"),
    (
        Method::GetWork,
        "{}",
        r#"Err(Refused(MissingArgument(ArgumentName { name: Fixed("worker") })))"#,
    ),
    (
        Method::UpdateResource,
        r#"{"resource":"gpu","amount":1.5}"#,
        r#"Err(Refused(WrongKind(ArgumentName { name: Fixed("amount") })))"#,
    ),
    (
        Method::UpdateResource,
        r#"{"resource":"gpu","amount":-1}"#,
        r#"Ok(UpdateResource(UpdateResource { resource: Name { text: Text { inner: "gpu" } }, amount: -1 }))"#,
    ),
    (
        Method::UpdateResource,
        r#"{"resource":1,"amount":"a","resource":"gpu","amount":2}"#,
        r#"Ok(UpdateResource(UpdateResource { resource: Name { text: Text { inner: "gpu" } }, amount: 2 }))"#,
    ),
];

#[test]
fn payloads_make_requests(rt: HostRuntime) -> Result<(), Fail> {
    for (method, payload, expected) in &PAYLOADS {
        let shown = answer_to(rt.alloc(), *method, payload)?;
        assert_eq!(rt; shown.as_str(), *expected, "{payload}");
    }
    Ok(())
}

/// Names and payloads, and what comes of them as it shows: the payload is looked at last.
static CALLS: [(&str, &str, &str); 6] = [
    ("nope", "[", "Err(UnknownMethod)"),
    ("prune", "[", "Err(NotBuilt)"),
    ("prune", "{}", "Err(NotBuilt)"),
    ("stop", "[", "Err(Refused(NotJson))"),
    ("stop", "{}", "Ok(Stop)"),
    (
        "update_resource",
        r#"{"resource":"gpu"}"#,
        r#"Err(Refused(MissingArgument(ArgumentName { name: Fixed("amount") })))"#,
    ),
];

#[test]
fn the_payload_is_looked_at_last(rt: HostRuntime) -> Result<(), Fail> {
    for (name, payload, expected) in &CALLS {
        let shown = answer_by_name(rt.alloc(), name, payload)?;
        assert_eq!(rt; shown.as_str(), *expected, "{name} {payload}");
    }
    Ok(())
}
