//! Whether the bytes at hand begin with a head that is served.
ghost use Rattle.std.specs.Prelude.{◌≤◌, length};
ghost use Rattle.httparse.specs.Grammar.{HasNoRequest, NeverHasRequest};
ghost use Rattle.httparse.specs.Spans.{IsRequestWithin, IsRequestOf};
ghost use Rattle.lg_http.specs.Decisions.{Decides};
ghost use Rattle.lg_http.specs.Heads.{max_head};
ghost use Rattle.lg_http.specs.Messages.{HasHopelessFront};

use crate::framing::{closes, refusal, told_length};
use crate::target::is_in_target;
use http1::fields::KnownFields;
use httparse::spans::{EMPTY_HEADER_SPAN, HeaderSpan, RequestSpans, Span, parse_request};
use httparse::{Error, Status};

/// How many bytes are looked at for a head.
pub(crate) const MAX_HEAD: usize = 16_384;

/// For how many fields there is room at first: a head that is served has no more.
const FEW_FIELDS: usize = 64;

/// How many fields there are at most in a head that is looked at: each takes three bytes or more.
const MOST_FIELDS: usize = MAX_HEAD / 3;

/// A head that is served: where its parts are, its length and its body's, in bytes, whether a field tells the body's, and
/// whether it closes the connection.
#[derive(Clone, Copy)]
pub(crate) struct Head {
    pub verb: Span,
    pub target: Span,
    pub len: usize,
    pub body_len: usize,
    pub sized: bool,
    pub last: bool,
}

/// What the bytes at hand are.
#[derive(Clone, Copy)]
pub(crate) enum Decision {
    /// They begin with a head that is served.
    Accept(Head),
    /// They begin with no message, and no bytes that follow change that. The number is the status to answer with.
    Bad(u16),
    /// A head may still come.
    NotYet,
}

/// What the bytes at hand are, of which there are at most as many as are looked at for a head.
pub(crate) fn decide(bytes: &[u8]) -> Decision
    requires { length bytes.now ≤ max_head }
    ensures { Decides bytes.now result }
{
    let mut fields = [EMPTY_HEADER_SPAN; FEW_FIELDS];
    match parse_request(bytes, &mut fields) {
        Ok(Status::Complete(spans)) => judge(bytes, &spans, &fields),
        Ok(Status::Partial) => cut_short(bytes),
        Err(Error::TooManyHeaders) => decide_long(bytes),
        Err(_) => broken(bytes),
    }
}

/// What bytes are whose head, once it is whole, has more fields than there was room for at first. It has room for all of
/// them beside the window, so that a refusal never wants memory.
fn decide_long(bytes: &[u8]) -> Decision
    requires { length bytes.now ≤ max_head }
    ensures { Decides bytes.now result }
{
    let mut fields = [EMPTY_HEADER_SPAN; MOST_FIELDS];
    match parse_request(bytes, &mut fields) {
        Ok(Status::Complete(spans)) => judge(bytes, &spans, &fields),
        Ok(Status::Partial) => cut_short(bytes),
        Err(_) => broken(bytes),
    }
}

/// What bytes are that no bytes can follow to make a head of them.
fn broken(bytes: &[u8]) -> Decision
    requires short { length bytes.now ≤ max_head }
    requires never { NeverHasRequest bytes.now }
    ensures { Decides bytes.now result }
{
    if is_in_target(bytes) {
        cut_short(bytes)
    } else {
        Decision::Bad(400)
    }
}

/// What bytes are that have no whole head and no front that is hopeless.
fn cut_short(bytes: &[u8]) -> Decision
    requires headless { HasNoRequest bytes.now }
    requires hopeful { ¬ HasHopelessFront bytes.now }
    ensures { Decides bytes.now result }
{
    if bytes.len() < MAX_HEAD {
        Decision::NotYet
    } else {
        Decision::Bad(431)
    }
}

/// What bytes are whose head is whole.
fn judge(bytes: &[u8], spans: &RequestSpans, fields: &[HeaderSpan]) -> Decision
    requires short { length bytes.now ≤ max_head }
    requires within { IsRequestWithin bytes.now fields.now spans.now }
    requires whole { IsRequestOf bytes.now fields.now spans.now }
    ensures { Decides bytes.now result }
{
    let fields = &fields[..spans.headers];
    let known = KnownFields::from_spans(bytes, fields);
    let told = told_length(bytes, fields, &known);
    match refusal(told, fields.len()) {
        Some(status) => Decision::Bad(status),
        None => {
            let sized = told.is_told();
            Decision::Accept(Head {
                verb: spans.method,
                target: spans.path,
                len: spans.len,
                body_len: told.bytes(),
                sized,
                last: closes(spans.version, spans.method.of(bytes), sized, known.close),
            })
        }
    }
}
