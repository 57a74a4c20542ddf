//! What is refused, with the bytes of each response.
use super::{PLAIN, Script, assert_served};
use crate::audit::LifeEnd;
use std::alloc::Global;
use std::process::Abort;
use std::sync::Wait;
use std::test::Fail;

/// The stop alone, and its response.
pub(super) const STOP: &[u8] = b"POST /api/stop HTTP/1.1\r\nHost: x\r\nContent-Length: 0\r\n\r\n";

pub(super) const STOPPED: &[u8] =
    b"HTTP/1.1 200 OK\r\nContent-Type: application/json\r\nContent-Length: 17\r\nConnection: close\r\n\r\n{\"response\":null}";

/// A method that nobody knows, a payload without what it needs, one that is no JSON; and then the two calls.
const FIVE_MESSAGES: &[u8] =
    b"POST /api/nope HTTP/1.1\r\nHost: x\r\nContent-Length: 0\r\n\r\nPOST /api/ping HTTP/1.1\r\nHost: x\r\nContent-Length: 0\r\n\r\nPOST /api/update_resource HTTP/1.1\r\nHost: x\r\nContent-Length: 6\r\n\r\ndata=xPOST /api/update_resource HTTP/1.1\r\nHost: x\r\nContent-Length: 56\r\n\r\ndata=%7B%22resource%22%3A%22gpu%22%2C%22amount%22%3A2%7DPOST /api/stop HTTP/1.1\r\nHost: x\r\nContent-Length: 0\r\n\r\n";

/// The five responses.
const FIVE_RESPONSES: &[u8] =
    b"HTTP/1.1 404 Not Found\r\nContent-Type: application/json\r\nContent-Length: 26\r\n\r\n{\"error\":\"unknown method\"}HTTP/1.1 400 Bad Request\r\nContent-Type: application/json\r\nContent-Length: 26\r\n\r\n{\"error\":\"missing worker\"}HTTP/1.1 400 Bad Request\r\nContent-Type: application/json\r\nContent-Length: 20\r\n\r\n{\"error\":\"bad json\"}HTTP/1.1 200 OK\r\nContent-Type: application/json\r\nContent-Length: 17\r\n\r\n{\"response\":true}HTTP/1.1 200 OK\r\nContent-Type: application/json\r\nContent-Length: 17\r\nConnection: close\r\n\r\n{\"response\":null}";

/// The response to bytes that are no message.
const BAD_MESSAGE: &[u8] =
    b"HTTP/1.1 400 Bad Request\r\nContent-Type: application/json\r\nContent-Length: 23\r\nConnection: close\r\n\r\n{\"error\":\"bad message\"}";

/// The response to a length above the most.
const BODY_TOO_LONG: &[u8] =
    b"HTTP/1.1 413 Content Too Large\r\nContent-Type: application/json\r\nContent-Length: 25\r\nConnection: close\r\n\r\n{\"error\":\"body too long\"}";

/// The response to too many fields.
const HEAD_TOO_LONG: &[u8] =
    b"HTTP/1.1 431 Request Header Fields Too Large\r\nContent-Type: application/json\r\nContent-Length: 25\r\nConnection: close\r\n\r\n{\"error\":\"head too long\"}";

/// The response to a POST that doesn't tell how long its body is.
const NO_LENGTH: &[u8] =
    b"HTTP/1.1 411 Length Required\r\nContent-Type: application/json\r\nContent-Length: 21\r\nConnection: close\r\n\r\n{\"error\":\"no length\"}";

/// The last responses to a verb and to a method that nobody knows.
const LAST_BAD_VERB: &[u8] =
    b"HTTP/1.1 405 Method Not Allowed\r\nContent-Type: application/json\r\nContent-Length: 20\r\nConnection: close\r\n\r\n{\"error\":\"bad verb\"}";

const LAST_UNKNOWN_METHOD: &[u8] =
    b"HTTP/1.1 404 Not Found\r\nContent-Type: application/json\r\nContent-Length: 26\r\nConnection: close\r\n\r\n{\"error\":\"unknown method\"}";

/// What ends its connection, with its response.
const ENDING: [(&[u8], &[u8]); 8] = [
    (b"stop\r\n\r\n", BAD_MESSAGE),
    (
        b"POST /api/stop HTTP/1.1\r\nContent-Length: 0\r\ncontent-length: 0\r\n\r\n",
        BAD_MESSAGE,
    ),
    (
        b"POST /api/stop HTTP/1.1\r\nContent-Length: 1048577\r\n\r\n",
        BODY_TOO_LONG,
    ),
    (
        b"POST /api/stop HTTP/1.1\na:\na:\na:\na:\na:\na:\na:\na:\na:\na:\na:\na:\na:\na:\na:\na:\na:\na:\na:\na:\na:\na:\na:\na:\na:\na:\na:\na:\na:\na:\na:\na:\na:\na:\na:\na:\na:\na:\na:\na:\na:\na:\na:\na:\na:\na:\na:\na:\na:\na:\na:\na:\na:\na:\na:\na:\na:\na:\na:\na:\na:\na:\na:\na:\na:\n\n",
        HEAD_TOO_LONG,
    ),
    (b"POST /api/stop HTTP/1.1\r\nHost: x\r\n\r\n", NO_LENGTH),
    (b"POST /nope HTTP/1.0\r\n\r\n", NO_LENGTH),
    (
        b"PUT /api/stop HTTP/1.1\r\nconnection: x, CLOSE\r\nContent-Length: 0\r\n\r\n",
        LAST_BAD_VERB,
    ),
    (b"GET /api/nope HTTP/1.0\r\n\r\n", LAST_UNKNOWN_METHOD),
];

#[test]
fn nothing_is_answered_behind_a_last_response(rt: HostRuntime) -> Result<(), Fail> {
    for (message, response) in ENDING {
        let mut input = message.to_vec(rt.alloc())?;
        input.extend_from_slice(STOP)?;
        let script = Script {
            inputs: &[input.as_slice()],
            ..PLAIN
        };
        assert_served(&rt, rt.alloc(), &script, &[response], 0, LifeEnd::Closed)?;
    }
    Ok(())
}

#[test]
fn refused_messages_leave_the_connection(rt: HostRuntime) -> Result<(), Fail> {
    for most in 1..=FIVE_MESSAGES.len() {
        let script = Script {
            inputs: &[FIVE_MESSAGES],
            most,
            ..PLAIN
        };
        assert_served(
            &rt,
            rt.alloc(),
            &script,
            &[FIVE_RESPONSES],
            2,
            LifeEnd::Stop,
        )?;
    }
    Ok(())
}

const BAD_VERB: &[u8] =
    b"HTTP/1.1 405 Method Not Allowed\r\nContent-Type: application/json\r\nContent-Length: 20\r\n\r\n{\"error\":\"bad verb\"}";

const UNKNOWN_PATH: &[u8] =
    b"HTTP/1.1 404 Not Found\r\nContent-Type: application/json\r\nContent-Length: 24\r\n\r\n{\"error\":\"unknown path\"}";

const UNKNOWN_METHOD: &[u8] =
    b"HTTP/1.1 404 Not Found\r\nContent-Type: application/json\r\nContent-Length: 26\r\n\r\n{\"error\":\"unknown method\"}";

const NOT_BUILT: &[u8] =
    b"HTTP/1.1 501 Not Implemented\r\nContent-Type: application/json\r\nContent-Length: 21\r\n\r\n{\"error\":\"not built\"}";

const BAD_JSON: &[u8] =
    b"HTTP/1.1 400 Bad Request\r\nContent-Type: application/json\r\nContent-Length: 20\r\n\r\n{\"error\":\"bad json\"}";

const MISSING_RESOURCE: &[u8] =
    b"HTTP/1.1 400 Bad Request\r\nContent-Type: application/json\r\nContent-Length: 28\r\n\r\n{\"error\":\"missing resource\"}";

const WRONG_KIND_RESOURCE: &[u8] =
    b"HTTP/1.1 400 Bad Request\r\nContent-Type: application/json\r\nContent-Length: 31\r\n\r\n{\"error\":\"wrong kind resource\"}";

const MISSING_AMOUNT: &[u8] =
    b"HTTP/1.1 400 Bad Request\r\nContent-Type: application/json\r\nContent-Length: 26\r\n\r\n{\"error\":\"missing amount\"}";

const WRONG_KIND_AMOUNT: &[u8] =
    b"HTTP/1.1 400 Bad Request\r\nContent-Type: application/json\r\nContent-Length: 29\r\n\r\n{\"error\":\"wrong kind amount\"}";

const OUT_OF_RANGE_AMOUNT: &[u8] =
    b"HTTP/1.1 400 Bad Request\r\nContent-Type: application/json\r\nContent-Length: 31\r\n\r\n{\"error\":\"out of range amount\"}";

/// Runs the daemon on a message with a stop behind it, and compares what the message was answered and how many calls
/// were entered.
fn assert_answered<R: Wait + Abort>(
    rt: &R,
    alloc: Global,
    message: &[u8],
    response: &[u8],
    calls: usize,
) -> Result<(), Fail> {
    let mut input = message.to_vec(alloc)?;
    input.extend_from_slice(STOP)?;
    let mut output = response.to_vec(alloc)?;
    output.extend_from_slice(STOPPED)?;
    let script = Script {
        inputs: &[input.as_slice()],
        ..PLAIN
    };
    assert_served(
        rt,
        alloc,
        &script,
        &[output.as_slice()],
        calls,
        LifeEnd::Stop,
    )
}

/// Messages that make no call, with their responses.
const REFUSED: [(&[u8], &[u8]); 26] = [
    (b"GET /api/nope HTTP/1.1\r\n\r\n", UNKNOWN_METHOD),
    (
        b"GET /api/stop?data=[] HTTP/1.1\r\nContent-Length: 7\r\n\r\ndata={}",
        BAD_JSON,
    ),
    (
        b"PUT /api/stop HTTP/1.1\r\nHost: x\r\nContent-Length: 0\r\n\r\n",
        BAD_VERB,
    ),
    (
        b"post /api/stop HTTP/1.1\r\nHost: x\r\nContent-Length: 0\r\n\r\n",
        BAD_VERB,
    ),
    (
        b"PUT /nope HTTP/1.1\r\nHost: x\r\nContent-Length: 0\r\n\r\n",
        BAD_VERB,
    ),
    (
        b"POST /stop HTTP/1.1\r\nHost: x\r\nContent-Length: 0\r\n\r\n",
        UNKNOWN_PATH,
    ),
    (
        b"POST /api HTTP/1.1\r\nHost: x\r\nContent-Length: 0\r\n\r\n",
        UNKNOWN_PATH,
    ),
    (
        b"POST /API/stop HTTP/1.1\r\nHost: x\r\nContent-Length: 6\r\n\r\ndata=x",
        UNKNOWN_PATH,
    ),
    (
        b"POST /api/ HTTP/1.1\r\nHost: x\r\nContent-Length: 0\r\n\r\n",
        UNKNOWN_METHOD,
    ),
    (
        b"POST /api/stop/ HTTP/1.1\r\nHost: x\r\nContent-Length: 0\r\n\r\n",
        UNKNOWN_METHOD,
    ),
    (
        b"POST /api/%73top HTTP/1.1\r\nHost: x\r\nContent-Length: 0\r\n\r\n",
        UNKNOWN_METHOD,
    ),
    (
        b"POST /api/nope HTTP/1.1\r\nHost: x\r\nContent-Length: 6\r\n\r\ndata=x",
        UNKNOWN_METHOD,
    ),
    (
        b"POST /api/prune HTTP/1.1\r\nHost: x\r\nContent-Length: 6\r\n\r\ndata=x",
        NOT_BUILT,
    ),
    (
        b"POST /api/worker_list HTTP/1.1\r\nHost: x\r\nContent-Length: 0\r\n\r\n",
        NOT_BUILT,
    ),
    (
        b"POST /api/stop HTTP/1.1\r\nHost: x\r\nContent-Length: 7\r\n\r\ndata=[]",
        BAD_JSON,
    ),
    (
        b"POST /api/stop HTTP/1.1\r\nHost: x\r\nContent-Length: 6\r\n\r\ndata={",
        BAD_JSON,
    ),
    (
        b"POST /api/stop HTTP/1.1\r\nHost: x\r\nContent-Length: 4\r\n\r\ndata",
        BAD_JSON,
    ),
    (
        b"POST /api/stop?data={} HTTP/1.1\r\nHost: x\r\nContent-Length: 6\r\n\r\ndata=1",
        BAD_JSON,
    ),
    (
        b"POST /api/update_resource HTTP/1.1\r\nHost: x\r\nContent-Length: 0\r\n\r\n",
        MISSING_RESOURCE,
    ),
    (
        b"POST /api/update_resource HTTP/1.1\r\nHost: x\r\nContent-Length: 35\r\n\r\ndata={\"resource\":null,\"amount\":\"x\"}",
        MISSING_RESOURCE,
    ),
    (
        b"POST /api/update_resource HTTP/1.1\r\nHost: x\r\nContent-Length: 32\r\n\r\ndata={\"resource\":1,\"amount\":\"x\"}",
        WRONG_KIND_RESOURCE,
    ),
    (
        b"POST /api/update_resource HTTP/1.1\r\nHost: x\r\nContent-Length: 23\r\n\r\ndata={\"resource\":\"gpu\"}",
        MISSING_AMOUNT,
    ),
    (
        b"POST /api/update_resource HTTP/1.1\r\nHost: x\r\nContent-Length: 36\r\n\r\ndata={\"resource\":\"gpu\",\"amount\":\"2\"}",
        WRONG_KIND_AMOUNT,
    ),
    (
        b"POST /api/update_resource HTTP/1.1\r\nHost: x\r\nContent-Length: 36\r\n\r\ndata={\"resource\":\"gpu\",\"amount\":2.0}",
        WRONG_KIND_AMOUNT,
    ),
    (
        b"POST /api/update_resource HTTP/1.1\r\nHost: x\r\nContent-Length: 43\r\n\r\ndata={\"resource\":\"gpu\",\"amount\":4294967296}",
        OUT_OF_RANGE_AMOUNT,
    ),
    (
        b"POST /api/update_resource HTTP/1.1\r\nHost: x\r\nContent-Length: 52\r\n\r\ndata={\"resource\":\"gpu\",\"amount\":9223372036854775808}",
        OUT_OF_RANGE_AMOUNT,
    ),
];

#[test]
fn each_refusal_has_its_response(rt: HostRuntime) -> Result<(), Fail> {
    for (message, response) in REFUSED {
        assert_answered(&rt, rt.alloc(), message, response, 1)?;
    }
    Ok(())
}

pub(super) const ANSWERED_TRUE: &[u8] =
    b"HTTP/1.1 200 OK\r\nContent-Type: application/json\r\nContent-Length: 17\r\n\r\n{\"response\":true}";

const ANSWERED_FALSE: &[u8] =
    b"HTTP/1.1 200 OK\r\nContent-Type: application/json\r\nContent-Length: 18\r\n\r\n{\"response\":false}";

/// Calls with amounts at the ends of their range, with their responses.
const ANSWERED: [(&[u8], &[u8]); 6] = [
    (
        b"GET /api/update_resource?data={\"resource\":\"gpu\",\"amount\":2} HTTP/1.1\r\nContent-Length: 6\r\n\r\ndata=x",
        ANSWERED_TRUE,
    ),
    (
        b"POST /api/update_resource HTTP/1.1\r\nHost: x\r\nContent-Length: 35\r\n\r\ndata={\"resource\":\"gpu\",\"amount\":-1}",
        ANSWERED_FALSE,
    ),
    (
        b"POST /api/update_resource HTTP/1.1\r\nHost: x\r\nContent-Length: 53\r\n\r\ndata={\"resource\":\"gpu\",\"amount\":-9223372036854775808}",
        ANSWERED_FALSE,
    ),
    (
        b"POST /api/update_resource HTTP/1.1\r\nHost: x\r\nContent-Length: 34\r\n\r\ndata={\"resource\":\"gpu\",\"amount\":0}",
        ANSWERED_TRUE,
    ),
    (
        b"POST /api/update_resource HTTP/1.1\r\nHost: x\r\nContent-Length: 43\r\n\r\ndata={\"resource\":\"gpu\",\"amount\":4294967295}",
        ANSWERED_TRUE,
    ),
    (
        b"POST /api/update_resource?data={\"resource\":1} HTTP/1.1\r\nHost: x\r\nContent-Length: 34\r\n\r\ndata={\"resource\":\"gpu\",\"amount\":2}",
        ANSWERED_TRUE,
    ),
];

#[test]
fn an_amount_below_0_is_answered_false(rt: HostRuntime) -> Result<(), Fail> {
    for (message, response) in ANSWERED {
        assert_answered(&rt, rt.alloc(), message, response, 2)?;
    }
    Ok(())
}
