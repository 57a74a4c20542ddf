//! Readers over sources in memory, and responses to sinks in memory.
use crate::{Message, Next, Reader};
use lg_io::{MemorySource, NoFaults, Source, Turn};
use std::alloc::Global;
use std::process::Abort;
use std::test::Fail;

mod heads;
mod pieces;
mod responses;

const TWO_CALLS: &[u8] =
    b"POST /api/update_resource HTTP/1.1\r\nHost: x\r\nContent-Length: 56\r\n\r\ndata=%7B%22resource%22%3A%22gpu%22%2C%22amount%22%3A2%7DPOST /api/stop HTTP/1.1\r\nHost: x\r\nContent-Length: 0\r\n\r\n";

const FORM: &[u8] = b"data=%7B%22resource%22%3A%22gpu%22%2C%22amount%22%3A2%7D";

fn source_of(alloc: Global, input: &[u8], turns: &[Turn]) -> Result<MemorySource<NoFaults>, Fail> {
    Ok(MemorySource::new(input.to_vec(alloc)?, turns.to_vec(alloc)?, NoFaults))
}

/// The parts of a message.
#[derive(Clone, Copy)]
struct Parts {
    verb: &'static [u8],
    target: &'static [u8],
    body: &'static [u8],
    sized: bool,
    last: bool,
}

/// A POST with this target and this body, behind which the connection stays.
fn post(target: &'static [u8], body: &'static [u8]) -> Parts {
    Parts {
        verb: b"POST",
        target,
        body,
        sized: true,
        last: false,
    }
}

fn has_parts(message: &Message, parts: Parts) -> bool {
    message.verb.bytes() == parts.verb
        && message.target.bytes() == parts.target
        && message.body.as_slice() == parts.body
        && message.sized == parts.sized
        && message.last == parts.last
}

/// What a reader is to answer.
#[derive(Clone, Copy)]
enum Expected {
    Message(Parts),
    End,
    Bad(u16),
    Torn,
}

fn is_expected(answer: &Next, expected: Expected) -> bool {
    match (answer, expected) {
        (Next::Message(message), Expected::Message(parts)) => has_parts(message, parts),
        (Next::End, Expected::End) | (Next::Torn, Expected::Torn) => true,
        (Next::Bad(status), Expected::Bad(due)) => *status == due,
        _ => false,
    }
}

/// The calls of `TWO_CALLS`.
fn two_calls() -> [Expected; 2] {
    [
        Expected::Message(post(b"/api/update_resource", FORM)),
        Expected::Message(post(b"/api/stop", b"")),
    ]
}

/// What comes first of an input in one piece.
fn first(alloc: Global, input: &[u8]) -> Result<Next, Fail> {
    let mut source = source_of(alloc, input, &[])?;
    let mut reader = Reader::make(alloc)?;
    Ok(reader.next(alloc, &mut source))
}

/// What a reader answers next. It gave no last message before.
fn next<S: Source>(rt: &impl Abort, alloc: Global, reader: &mut Reader, source: &mut S) -> Next {
    assert!(rt; !reader.is_closed());
    reader.next(alloc, source)
}
