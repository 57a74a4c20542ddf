//! One link, heard and spoken to: what is read changes nothing of what was written, and the other way round.
ghost use Rattle.std.specs.Prelude.{◌≡◌, ◌≢◌, ℕ, List, ◌++◌, None, IsErr};
ghost use Rattle.lg_http.specs.Messages.{IsRefusalStatus};
ghost use Rattle.lg_http.specs.declared.message.Next.TheVariants.{Quiet, Failed};
ghost use Rattle.lg_http.specs.Answers.{Reads, ending_of};
ghost use Rattle.lg_io.specs.Cause.{HasCause};
ghost use Rattle.lg_io.specs.Sink.{WritesAll};
ghost use Rattle.luigid.specs.Hearing.{HearsOn, IsQuietFor, quiets_behind};
ghost use Rattle.luigid.specs.Said.{answer_of};
ghost use Rattle.luigid.specs.Transcript.{response_of, error_response, error_text};

use crate::said::Said;
use lg_base::Failed as WriteFailed;
use lg_http::{Next, Reader, respond_error};
use lg_io::Link;
use std::alloc::Global;
use std::sync::Wait;

/// The next answer of a reader that isn't quiet: it is idle at last. It may wait for it forever.
pub fn hear<R: Wait, L: Link>(rt: &R, alloc: Global, reader: &mut Reader, link: &mut L) -> Next
    requires { reader.old.over ≡ None }
    ensures loud { result ≢ Quiet }
    ensures reads { (got : List ℕ) × HearsOn (L.received link.old) (L.received link.new) result got
        × Reads (reader.old.left ++ got) result reader.new.left }
    ensures counts { IsQuietFor (L.received link.old) reader.old.quiets
        → IsQuietFor (L.received link.new) (quiets_behind result reader.new.quiets) }
    ensures over { reader.new.over ≡ ending_of result }
    ensures cause { HasCause (L.Source.faults link.old) (L.Source.faults link.new) (result ≡ Failed) }
    ensures taken { L.taken link.new ≡ L.taken link.old }
    ensures wrote { L.Sink.faults link.new ≡ L.Sink.faults link.old }
{
    for _ in rt.forever() {
        match reader.next(alloc, link) {
            Next::Quiet => {}
            next => return next,
        }
    }
    unreachable!()
}

/// Writes a response to a link, its last or not.
pub fn speak<L: Link>(said: &Said, last: bool, link: &mut L) -> Result<(), WriteFailed>
    ensures told { WritesAll (L.taken link.old) (L.taken link.new) (response_of (answer_of said.now) last) result }
    ensures cause { HasCause (L.Sink.faults link.old) (L.Sink.faults link.new) (IsErr result) }
    ensures received { L.received link.new ≡ L.received link.old }
    ensures read { L.Source.faults link.new ≡ L.Source.faults link.old }
{
    said.say(last, link)
}

/// Writes to a link, with this status, that what stands in a message's place is none.
pub fn speak_bad_message<L: Link>(status: u16, link: &mut L) -> Result<(), WriteFailed>
    requires { IsRefusalStatus status }
    ensures told { WritesAll (L.taken link.old) (L.taken link.new) (error_response status) result }
    ensures cause { HasCause (L.Sink.faults link.old) (L.Sink.faults link.new) (IsErr result) }
    ensures received { L.received link.new ≡ L.received link.old }
    ensures read { L.Source.faults link.new ≡ L.Source.faults link.old }
{
    respond_error(link, status, &[error_text(status)], true)
}

/// What is said of bytes that are no message.
fn error_text(status: u16) -> &'static str
    ensures { result.now ≡ error_text status }
{
    match status {
        431 => "head too long",
        413 => "body too long",
        _ => "bad message",
    }
}
