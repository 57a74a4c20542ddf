//! The call that a message makes.
ghost use Rattle.std.specs.Prelude.{◌≡◌, IfOk, OnErr};
ghost use Rattle.luigid.specs.Call.{call_by, call_of, payload_size, route, route_of, size_of, used_of, Asks, MayWantMemory};
ghost use Rattle.luigid.specs.Payload.{payload_of};
ghost use Rattle.std.specs.Prelude.{Ok};

use crate::payload::{path_of, payload_of};
use crate::refusal::{Misrouted, NoCall};
use lg_base::NoMemory;
use lg_calls::{Method, PayloadFault, Request, requested};
use lg_http::Message;
use std::alloc::Global;

/// What a path begins with.
const PREFIX: &[u8] = b"/api/";

/// What a message asks for.
#[derive(Debug, Drop)]
pub enum Asked {
    /// A call with its arguments, each in its range, and the bytes of its payload; 2^32 - 1 where there are more.
    Call(Request, u32),
    /// No call, for this reason.
    Nothing(NoCall),
}

/// The call that a message makes, or why it makes none. Memory is wanted only where a method was found.
pub fn read_call(alloc: Global, message: &Message) -> Result<Asked, NoMemory>
    ensures asked { IfOk result (λ asked.
        Asks asked (call_of message.now.verb message.now.sized message.now.target message.now.body.items)
        (size_of message.now.verb message.now.target message.now.body.items)) }
    ensures memory { OnErr result
        (MayWantMemory (call_of message.now.verb message.now.sized message.now.target message.now.body.items)) }
{
    let verb = message.verb.bytes();
    let target = message.target.bytes();
    match route(verb, message.sized, target) {
        Ok(method) => asked_of(alloc, method, target, used_of(verb, &message.body)),
        Err(misrouted) => Ok(Asked::Nothing(NoCall::Misrouted(misrouted))),
    }
}

/// The method of a verb and a target. The verb is looked at first, and then whether a POST tells its body's length.
fn route(verb: &[u8], sized: bool, target: &[u8]) -> Result<Method, Misrouted>
    ensures { result ≡ route verb.now sized target.now }
{
    if verb == b"POST".as_slice() {
        return if sized {
            route_of(path_of(target))
        } else {
            Err(Misrouted::NoLength)
        };
    }
    if verb == b"GET".as_slice() {
        return route_of(path_of(target));
    }
    Err(Misrouted::BadVerb)
}

/// The part of a body that is used: that of a POST.
fn used_of<'a>(verb: &[u8], body: &'a [u8]) -> &'a [u8]
    ensures { result.now ≡ used_of verb.now body.now }
{
    if verb == b"POST".as_slice() {
        body
    } else {
        &[]
    }
}

/// The method of a path: what stands behind `/api/`, not decoded.
fn route_of(path: &[u8]) -> Result<Method, Misrouted>
    ensures { result ≡ route_of path.now }
{
    if path.starts_with(PREFIX) {
        Method::asked(&path[PREFIX.len()..]).map_err(Misrouted::from)
    } else {
        Err(Misrouted::UnknownPath)
    }
}

/// What is asked of a method by the payload of a target and a body.
fn asked_of(alloc: Global, method: Method, target: &[u8], body: &[u8]) -> Result<Asked, NoMemory>
    ensures { IfOk result (λ asked. Asks asked (call_by (Ok method) (payload_of target.now body.now)) (payload_size target.now body.now)) }
{
    let payload = payload_of(alloc, target, body)?;
    let size = u32::try_from(payload.len()).unwrap_or(u32::MAX);
    match requested(alloc, method, payload.as_str()) {
        Ok(request) => Ok(Asked::Call(request, size)),
        Err(PayloadFault::Refused(refusal)) => Ok(Asked::Nothing(NoCall::Refused(refusal))),
        Err(PayloadFault::NoMemory) => Err(NoMemory),
    }
}
