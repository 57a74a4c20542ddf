//! Calls and records from outside, with what is to come of them.

mod calls;
mod names;
mod readings;
mod records;
mod refusals;

use crate::{Method, PayloadFault, request_of, requested};
use lg_base::Text;
use std::alloc::{AllocError, Global};

/// What comes of a payload, as it shows.
fn answer_to(alloc: Global, method: Method, payload: &str) -> Result<String, AllocError> {
    let answer = requested(alloc, method, payload);
    format!(in alloc; "{answer:?}")
}

/// What comes of a call by the name of its method, as it shows.
fn answer_by_name(alloc: Global, name: &str, payload: &str) -> Result<String, AllocError> {
    let method = Text::copied(alloc, name)?;
    let payload = Text::copied(alloc, payload)?;
    let answer = request_of(alloc, &method, &payload);
    format!(in alloc; "{answer:?}")
}

/// What is said of a payload that is refused; nothing of another.
fn refusal_of(alloc: Global, method: Method, payload: &str) -> Result<String, AllocError> {
    match requested(alloc, method, payload) {
        Err(PayloadFault::Refused(refusal)) => {
            let (words, name) = refusal.words();
            format!(in alloc; "{words}{name}")
        }
        _ => String::from_str(alloc, ""),
    }
}
