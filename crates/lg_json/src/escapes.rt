ghost use Rattle.std.specs.Prelude.{◌≡◌, ℕ, ◌+◌, ◌<◌, ◌≤◌, ◌++◌, true, false, slice_index, length, flat_map, chars, slice_get, IfSome, IsErr, IsUtf8};
ghost use Rattle.std.specs.Char.{digit_char};
ghost use Rattle.lg_io.specs.Cause.{HasCause};
ghost use Rattle.lg_io.specs.Sink.{WritesAll};
ghost use Rattle.lg_io.specs.Writes.{Writes};
ghost use Rattle.lg_json.specs.Capped.{capped};
ghost use Rattle.lg_json.specs.Escapes.{is_plain, letter_of, unit_escape, escape, escaped};
ghost use Rattle.lg_json.specs.Parts.{joined};
ghost use Rattle.lg_json.specs.Text.{quoted, text_of};
ghost use Rattle.lg_json.specs.Tree.{str};

use lg_base::Failed;
use lg_io::{Sink, write_all};

/// The number of bytes of a text with its quotes and escapes, or 2^64 - 1 where there are more.
pub(crate) fn quoted_length(text: &str) -> u64
    ensures { result ≡ capped (length (quoted text.now)) }
{
    parts_length(&[text])
}

/// Writes a text between quotes, with its escapes.
pub(crate) fn emit_quoted<S: Sink>(text: &str, sink: &mut S) -> Result<(), Failed>
    ensures { Writes S.taken S.faults S.rest sink.old sink.new (quoted text.now) result }
{
    emit_parts(&[text], sink)
}

/// The number of bytes of the JSON text that `emit_parts` writes, or 2^64 - 1 where there are more. It takes no memory.
pub fn parts_length(parts: &[&str]) -> u64
    ensures { result ≡ capped (length (text_of (str (joined parts.now)))) }
{
    // The two quotes.
    let mut total: u64 = 2;
    for part in parts {
        total = total.saturating_add(escaped_length(part));
    }
    total
}

/// Writes the one JSON text of the parts, one behind the other: between quotes, with escapes for all but printable
/// ASCII. Where a write fails a front of it was written. It takes no memory.
pub fn emit_parts<S: Sink>(parts: &[&str], sink: &mut S) -> Result<(), Failed>
    ensures told { WritesAll (S.taken sink.old) (S.taken sink.new) (text_of (str (joined parts.now))) result }
    ensures cause { HasCause (S.faults sink.old) (S.faults sink.new) (IsErr result) }
    ensures rest { S.rest sink.new ≡ S.rest sink.old }
{
    write_all(sink, b"\"")?;
    for part in parts {
        emit_escaped(part, sink)?;
    }
    write_all(sink, b"\"")
}

/// The number of bytes of a text's escapes, or 2^64 - 1 where there are more.
fn escaped_length(text: &str) -> u64
    ensures size { result ≡ capped (length (escaped (chars text.now))) }
    ensures utf8 { IsUtf8 text.now }
{
    let mut total: u64 = 0;
    for c in text.chars() {
        total = total.saturating_add(escape_length(c));
    }
    total
}

fn emit_escaped<S: Sink>(text: &str, sink: &mut S) -> Result<(), Failed>
    ensures written { Writes S.taken S.faults S.rest sink.old sink.new (escaped (chars text.now)) result }
    ensures utf8 { IsUtf8 text.now }
{
    let mut left = text;
    loop {
        let (plain, rest) = split_plain(left);
        write_all(sink, plain.as_bytes())?;
        let mut characters = rest.chars();
        let Some(c) = characters.next() else {
            return Ok(());
        };
        emit_escape(c, sink)?;
        left = characters.as_str();
    }
}

/// The longest front of characters that stand for themselves, and what follows it.
fn split_plain(text: &str) -> (&str, &str)
    ensures size { length result.0.now + length result.1.now ≡ length text.now }
    ensures same { escaped (chars text.now) ≡ result.0.now ++ escaped (chars result.1.now) }
    ensures next { IfSome (slice_get (chars result.1.now) 0) (λ c. is_plain c ≡ false) }
    ensures utf8 { IsUtf8 result.1.now }
{
    text.split_at(plain_len(text.as_bytes()))
}

/// How many bytes at the front are characters that stand for themselves. Each such character is one byte.
fn plain_len(bytes: &[u8]) -> usize
    ensures within { result ≤ length bytes.now }
    ensures plain { (k : ℕ) → k < result → is_plain (slice_index bytes.now k) ≡ true }
    ensures next { result < length bytes.now → is_plain (slice_index bytes.now result) ≡ false }
{
    bytes
        .iter()
        .position(|byte| !is_plain(char::from(*byte)))
        .unwrap_or(bytes.len())
}

fn is_plain(c: char) -> bool
    ensures { result ≡ is_plain c }
{
    matches!(c, ' '..='~') && c != '"' && c != '\\'
}

/// Writes what stands for a character that isn't plain.
fn emit_escape<S: Sink>(c: char, sink: &mut S) -> Result<(), Failed>
    requires { is_plain c ≡ false }
    ensures { Writes S.taken S.faults S.rest sink.old sink.new (escape c) result }
{
    match escape_letter(c) {
        Some(letter) => write_all(sink, &[b'\\', letter]),
        None => emit_units(c.encode_utf16(&mut [0; 2]), sink),
    }
}

fn emit_units<S: Sink>(units: &[u16], sink: &mut S) -> Result<(), Failed>
    ensures { Writes S.taken S.faults S.rest sink.old sink.new (flat_map unit_escape units.now) result }
{
    for unit in units {
        write_all(sink, &escape_of_unit(*unit))?;
    }
    Ok(())
}

fn escape_length(c: char) -> u64
    ensures { result ≡ length (escape c) }
{
    if is_plain(c) {
        1
    } else if escape_letter(c).is_some() {
        2
    } else {
        6 * c.len_utf16() as u64
    }
}

fn escape_letter(c: char) -> Option<u8>
    ensures { result ≡ letter_of c }
{
    match c {
        '"' => Some(b'"'),
        '\\' => Some(b'\\'),
        '\u{8}' => Some(b'b'),
        '\u{c}' => Some(b'f'),
        '\n' => Some(b'n'),
        '\r' => Some(b'r'),
        '\t' => Some(b't'),
        _ => None,
    }
}

fn escape_of_unit(unit: u16) -> [u8; 6]
    ensures { result ≡ unit_escape unit }
{
    [
        b'\\',
        b'u',
        hex_digit(unit / 4096),
        hex_digit(unit / 256 % 16),
        hex_digit(unit / 16 % 16),
        hex_digit(unit % 16),
    ]
}

fn hex_digit(digit: u16) -> u8
    requires { digit < 16 }
    ensures { result ≡ digit_char digit }
{
    match digit as u8 {
        digit @ 0..10 => b'0' + digit,
        digit => b'a' - 10 + digit,
    }
}
