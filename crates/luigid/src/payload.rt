//! Where the payload of a message stands: in the form of the target's query and of the body (WHATWG URL standard).
ghost use Rattle.std.specs.Prelude.{◌≡◌, ◌<◌, length, option_map, IfOk, IfSome};
ghost use Rattle.std.specs.Cow.{cow_str_bytes};
ghost use Rattle.form_urlencoded.specs.Form.{raw_pairs as pairs_of};
ghost use Rattle.luigid.specs.Payload.{path_of, query_of, question_mark, form_of, payload_of, last_data};

use form_urlencoded::{decode, raw_pairs};
use std::alloc::{AllocError, Global};
use std::borrow::CowStr;

/// The name of the pair that has the payload.
const NAME: &str = "data";

/// The payload of a message that has none.
const EMPTY: &str = "{}";

/// The path of a target: what stands before the first question mark, not decoded.
pub fn path_of(target: &[u8]) -> &[u8]
    ensures { result.now ≡ path_of target.now }
{
    match question_mark(target) {
        Some(at) => &target[..at],
        None => target,
    }
}

/// The payload: the last value named `data` of the target's query and the body, decoded, or an empty object.
pub fn payload_of<'a>(
    alloc: Global,
    target: &'a [u8],
    body: &'a [u8],
) -> Result<CowStr<'a>, AllocError>
    ensures { IfOk result (λ payload. cow_str_bytes payload ≡ payload_of target.now body.now) }
{
    match form_data(alloc, target, body)? {
        Some(value) => decode(alloc, value),
        None => Ok(CowStr::Borrowed(EMPTY)),
    }
}

/// The last value named `data` of the query and the body, not decoded.
#[tactic(auto, using(crate::proofs::Payloads::last_of_both))]
fn form_data<'a>(
    alloc: Global,
    target: &'a [u8],
    body: &'a [u8],
) -> Result<Option<&'a [u8]>, AllocError>
    ensures { IfOk result (λ found. option_map (λ value. value.now) found ≡ last_data (form_of target.now body.now)) }
{
    if let Some(value) = last_data(alloc, body)? {
        return Ok(Some(value));
    }
    last_data(alloc, query_of(target))
}

/// The query of a target: what stands behind the first question mark.
fn query_of(target: &[u8]) -> &[u8]
    ensures { result.now ≡ query_of target.now }
{
    match question_mark(target) {
        Some(at) => &target[at + 1..],
        None => &[],
    }
}

/// Where the first question mark stands.
fn question_mark(target: &[u8]) -> Option<usize>
    ensures at { result ≡ question_mark target.now }
    ensures within { IfSome result (λ at. at < length target.now) }
{
    target.iter().position(|b| *b == b'?')
}

/// The last value of that name in a form, not decoded.
fn last_data<'a>(alloc: Global, form: &'a [u8]) -> Result<Option<&'a [u8]>, AllocError>
    ensures { IfOk result (λ found. option_map (λ value. value.now) found ≡ last_data (pairs_of form.now)) }
{
    let mut found = None;
    for (name, value) in raw_pairs(form) {
        if decode(alloc, name)?.as_str() == NAME {
            found = Some(value);
        }
    }
    Ok(found)
}
