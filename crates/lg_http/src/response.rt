//! Responses, written as they are made.
ghost use Rattle.std.specs.Prelude.{◌≡◌, ◌+◌, [], length, unwrap_or, IsErr, flat_map};
ghost use Rattle.lg_io.specs.Cause.{HasCause};
ghost use Rattle.lg_io.specs.Sink.{WritesAll};
ghost use Rattle.lg_json.specs.Capped.{capped};
ghost use Rattle.lg_json.specs.Parts.{joined};
ghost use Rattle.lg_json.specs.Tree.{str, tree_of};
ghost use Rattle.lg_io.specs.Writes.{Writes};
ghost use Rattle.lg_http.specs.Response.{IsStatus, reason_of, opening, closing, head_of, front_of, response_bytes};

use lg_base::Failed;
use lg_io::{Sink, write_all};
use lg_json::{Out, emit, emit_parts, length, parts_length};

/// Writes the response with this status. At 200 the tree stands under `response`, at every other status under `error`;
/// `last` tells the client that the connection closes. The status is one of 200, 400, 404, 405, 409, 411, 413, 431, 501,
/// 503 and 507. It takes no memory. Where a write fails a front of the response was written.
pub fn respond<S: Sink>(sink: &mut S, status: u16, tree: &Out, last: bool) -> Result<(), Failed>
    requires { IsStatus status }
    ensures told { WritesAll (S.taken sink.old) (S.taken sink.new) (response_bytes status (tree_of tree.now) last) result }
    ensures cause { HasCause (S.faults sink.old) (S.faults sink.new) (IsErr result) }
    ensures rest { S.rest sink.new ≡ S.rest sink.old }
{
    write_front(sink, status, length(tree), last)?;
    emit(tree, sink)?;
    write_all(sink, b"}")
}

/// Writes the response with this status whose tree is one text, the parts one behind the other. All else is as with
/// `respond`: so what a refusal names can be said where no memory is left.
pub fn respond_error<S: Sink>(
    sink: &mut S,
    status: u16,
    parts: &[&str],
    last: bool,
) -> Result<(), Failed>
    requires { IsStatus status }
    ensures told { WritesAll (S.taken sink.old) (S.taken sink.new) (response_bytes status (str (joined parts.now)) last) result }
    ensures cause { HasCause (S.faults sink.old) (S.faults sink.new) (IsErr result) }
    ensures rest { S.rest sink.new ≡ S.rest sink.old }
{
    write_front(sink, status, parts_length(parts), last)?;
    emit_parts(parts, sink)?;
    write_all(sink, b"}")
}

/// Writes what stands before a tree whose text has so many bytes.
fn write_front<S: Sink>(sink: &mut S, status: u16, size: u64, last: bool) -> Result<(), Failed>
    requires { IsStatus status }
    ensures { Writes S.taken S.faults S.rest sink.old sink.new (front_of status size last) result }
{
    write_head(sink, status, body_length(status, size), last)?;
    write_all(sink, opening(status))
}

/// The number of bytes of the body around a tree whose text has so many, or 2^64 - 1 where it is longer.
fn body_length(status: u16, size: u64) -> u64
    ensures { result ≡ capped (size + (length (opening status) + 1)) }
{
    size.saturating_add(opening(status).len() as u64 + 1)
}

/// Writes the lines before a body of so many bytes.
fn write_head<S: Sink>(sink: &mut S, status: u16, size: u64, last: bool) -> Result<(), Failed>
    requires { IsStatus status }
    ensures { Writes S.taken S.faults S.rest sink.old sink.new (head_of status size last) result }
{
    let mut status_digits = itoa::Buffer::new();
    let mut size_digits = itoa::Buffer::new();
    let pieces: [&[u8]; 9] = [
        b"HTTP/1.1 ",
        status_digits.format(status).as_bytes(),
        b" ",
        reason(status),
        b"\r\nContent-Type: application/json\r\nContent-Length: ",
        size_digits.format(size).as_bytes(),
        b"\r\n",
        closing(last),
        b"\r\n",
    ];
    write_pieces(sink, &pieces)
}

/// Writes the pieces one after another.
fn write_pieces<S: Sink>(sink: &mut S, pieces: &[&[u8]]) -> Result<(), Failed>
    ensures { Writes S.taken S.faults S.rest sink.old sink.new (flat_map (λ piece. piece.now) pieces.now) result }
{
    for piece in pieces {
        write_all(sink, piece)?;
    }
    Ok(())
}

/// The reason that stands beside a status.
fn reason(status: u16) -> &'static [u8]
    requires { IsStatus status }
    ensures { result.now ≡ unwrap_or (reason_of status) [] }
{
    match status {
        200 => b"OK",
        400 => b"Bad Request",
        404 => b"Not Found",
        405 => b"Method Not Allowed",
        409 => b"Conflict",
        411 => b"Length Required",
        413 => b"Content Too Large",
        431 => b"Request Header Fields Too Large",
        501 => b"Not Implemented",
        503 => b"Service Unavailable",
        507 => b"Insufficient Storage",
        _ => unreachable!(),
    }
}

fn opening(status: u16) -> &'static [u8]
    ensures { result.now ≡ opening status }
{
    if status == 200 {
        b"{\"response\":"
    } else {
        b"{\"error\":"
    }
}

fn closing(last: bool) -> &'static [u8]
    ensures { result.now ≡ closing last }
{
    if last { b"Connection: close\r\n" } else { b"" }
}
