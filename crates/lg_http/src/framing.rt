//! What the fields of a head say of its body and of the connection.
ghost use Rattle.std.specs.Prelude.{◌≡◌, List, length, map, All, None, count_by};
ghost use Rattle.std.specs.Char.{is_ascii_digit};
ghost use Rattle.std.specs.List.{list_all, list_any};
ghost use Rattle.http1.specs.Fields.{Header, content_length, is_framing_field, known_fields};
ghost use Rattle.httparse.specs.Spans.{IsHeaderWithin, header_bytes};
ghost use Rattle.lg_http.specs.Fields.{closes_in, closes_with, is_decimal, is_decimal_length, is_sized_in, length_in, lengths_in};
ghost use Rattle.lg_http.specs.Framing.{Tells};
ghost use Rattle.lg_http.specs.Heads.{refusal_in};

use http1::fields::{ContentLength, KnownFields};
use http1::text::eq_ignore_case;
use httparse::spans::HeaderSpan;

const MAX_FIELDS: usize = 64;

const MAX_BODY: u64 = 1_048_576;

/// What the fields of a head tell of the body's length.
#[derive(Clone, Copy, Debug, PartialEq, Eq)]
pub(crate) enum BodyLength {
    /// Nothing.
    Absent,
    /// So many bytes, 2^64 - 1 where there are more.
    Bytes(u64),
    /// A transfer coding, a length that is no decimal number, or more than one length.
    Unclear,
}

impl BodyLength {
    /// How many bytes the body has, of a head that is served.
    pub(crate) fn bytes(self) -> usize
        ensures { (headers : List Header) → Tells self headers → refusal_in headers ≡ None → result ≡ length_in headers }
    {
        match self {
            BodyLength::Bytes(count) => count as usize,
            BodyLength::Absent | BodyLength::Unclear => 0,
        }
    }

    /// Whether a field tells it, of a head that is served.
    pub(crate) fn is_told(self) -> bool
        ensures { (headers : List Header) → Tells self headers → refusal_in headers ≡ None → result ≡ is_sized_in headers }
    {
        match self {
            BodyLength::Bytes(_) => true,
            BodyLength::Absent | BodyLength::Unclear => false,
        }
    }
}

/// The length that the fields tell. `http1` counts those that frame the body up to two.
pub(crate) fn told_length(bytes: &[u8], fields: &[HeaderSpan], known: &KnownFields) -> BodyLength
    requires within { All (IsHeaderWithin (length bytes.now)) fields.now }
    requires known { known.now ≡ known_fields (map (header_bytes bytes.now) fields.now) }
    ensures { Tells result (map (header_bytes bytes.now) fields.now) }
{
    match known.framing_fields {
        0 => BodyLength::Absent,
        1 => only_length(bytes, fields, known.content_length),
        _ => BodyLength::Unclear,
    }
}

/// The same where one field alone frames the body.
fn only_length(bytes: &[u8], fields: &[HeaderSpan], told: ContentLength) -> BodyLength
    requires within { All (IsHeaderWithin (length bytes.now)) fields.now }
    requires one { count_by is_framing_field (map (header_bytes bytes.now) fields.now) ≡ 1 }
    requires told { told ≡ content_length (lengths_in (map (header_bytes bytes.now) fields.now)) }
    ensures { Tells result (map (header_bytes bytes.now) fields.now) }
{
    match told {
        ContentLength::Absent => BodyLength::Unclear,
        ContentLength::Value(count) => BodyLength::Bytes(count),
        ContentLength::Invalid => {
            if has_decimal_length(bytes, fields) {
                BodyLength::Bytes(u64::MAX)
            } else {
                BodyLength::Unclear
            }
        }
    }
}

/// Whether a field tells the body's length by a decimal number, of however many digits.
fn has_decimal_length(bytes: &[u8], fields: &[HeaderSpan]) -> bool
    requires { All (IsHeaderWithin (length bytes.now)) fields.now }
    ensures { result ≡ list_any (λ field. is_decimal_length (header_bytes bytes.now field)) fields.now }
{
    fields.iter().any(|field| is_decimal_length(bytes, field))
}

fn is_decimal_length(bytes: &[u8], field: &HeaderSpan) -> bool
    requires { IsHeaderWithin (length bytes.now) field.now }
    ensures { result ≡ is_decimal_length (header_bytes bytes.now field.now) }
{
    eq_ignore_case(field.name.of(bytes), b"content-length") && is_decimal(field.value.of(bytes))
}

fn is_decimal(text: &[u8]) -> bool
    ensures { result ≡ is_decimal text.now }
{
    !text.is_empty() && are_digits(text)
}

fn are_digits(text: &[u8]) -> bool
    ensures { result ≡ list_all is_ascii_digit text.now }
{
    text.iter().all(|b| b.is_ascii_digit())
}

/// The status with which a head of so many fields is refused, if it is.
pub(crate) fn refusal(told: BodyLength, fields: usize) -> Option<u16>
    ensures { (headers : List Header) → Tells told headers → fields ≡ length headers → result ≡ refusal_in headers }
{
    match told {
        BodyLength::Unclear => Some(400),
        _ if fields > MAX_FIELDS => Some(431),
        BodyLength::Bytes(count) if count > MAX_BODY => Some(413),
        BodyLength::Absent | BodyLength::Bytes(_) => None,
    }
}

/// Whether the connection ends behind a message of this version, `0` for HTTP/1.0, and with this verb, which tells its
/// body's length or not and whose fields ask for the end or not.
pub(crate) fn closes(version: u8, verb: &[u8], is_sized: bool, asks: bool) -> bool
    ensures { (headers : List Header) → is_sized ≡ is_sized_in headers → asks ≡ closes_in headers
        → result ≡ closes_with version verb.now headers }
{
    version == 0 || asks || (verb == b"POST".as_slice() && !is_sized)
}
