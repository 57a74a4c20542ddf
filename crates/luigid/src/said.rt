//! What is said to a message, and its response.
ghost use Rattle.std.specs.Prelude.{◌≡◌, IsErr};
ghost use Rattle.lg_io.specs.Cause.{HasCause};
ghost use Rattle.lg_io.specs.Sink.{WritesAll};
ghost use Rattle.lg_calls.specs.Outcome.{full};
ghost use Rattle.luigid.specs.declared.refusal.NoCall.TheVariants.{Misrouted as misrouted_as, Refused};
ghost use Rattle.luigid.specs.Transcript.{is_last, is_marked, not_called, outcome_response, response_of};

use crate::refusal::{Misrouted, NoCall};
use itoa::Buffer;
use lg_base::Failed;
use lg_calls::{Refusal, Reply};
use lg_http::{respond, respond_error};
use lg_io::Sink;

/// What is said to a message.
#[derive(Debug, Drop)]
pub enum Said {
    /// The reply of the scheduler, and whether the life was over behind it.
    Replied(Reply, bool),
    /// The scheduler is full, with so many tasks, and whether the life was over behind it.
    Full(u64, bool),
    /// Why the message makes no call.
    NotCalled(NoCall),
    /// Memory ran out before the call was entered.
    NoMemory,
}

impl Said {
    ghost use Rattle.luigid.specs.Said.{answer_of};

    /// Writes the response, the connection's last or not. It takes no memory.
    pub fn say<S: Sink>(&self, last: bool, sink: &mut S) -> Result<(), Failed>
        ensures told { WritesAll (S.taken sink.old) (S.taken sink.new) (response_of (answer_of self.now) last) result }
        ensures cause { HasCause (S.faults sink.old) (S.faults sink.new) (IsErr result) }
        ensures rest { S.rest sink.new ≡ S.rest sink.old }
    {
        match self {
            Said::Replied(reply, _) => respond(sink, 200, &reply.0, last),
            Said::Full(tasks, _) => say_full(*tasks, last, sink),
            Said::NotCalled(reason) => say_no_call(reason, last, sink),
            Said::NoMemory => respond_error(sink, 503, &["no memory"], last),
        }
    }

    /// Whether the response is the connection's last: behind a message that closes it or not.
    pub fn is_last(&self, closes: bool) -> bool
        ensures { result ≡ is_last closes (answer_of self.now) }
    {
        closes || self.is_marked()
    }

    /// Whether the life was over behind it.
    pub fn is_marked(&self) -> bool
        ensures { result ≡ is_marked (answer_of self.now) }
    {
        match self {
            Said::Replied(_, mark) | Said::Full(_, mark) => *mark,
            Said::NotCalled(_) | Said::NoMemory => false,
        }
    }
}

/// Writes that the scheduler is full, with so many tasks.
fn say_full<S: Sink>(tasks: u64, last: bool, sink: &mut S) -> Result<(), Failed>
    ensures told { WritesAll (S.taken sink.old) (S.taken sink.new) (outcome_response (full tasks) last) result }
    ensures cause { HasCause (S.faults sink.old) (S.faults sink.new) (IsErr result) }
    ensures rest { S.rest sink.new ≡ S.rest sink.old }
{
    let mut digits = Buffer::new();
    let parts: [&str; 2] = ["full ", digits.format(tasks)];
    respond_error(sink, 507, &parts, last)
}

/// Writes why a message makes no call.
fn say_no_call<S: Sink>(reason: &NoCall, last: bool, sink: &mut S) -> Result<(), Failed>
    ensures told { WritesAll (S.taken sink.old) (S.taken sink.new) (response_of (not_called reason.now) last) result }
    ensures cause { HasCause (S.faults sink.old) (S.faults sink.new) (IsErr result) }
    ensures rest { S.rest sink.new ≡ S.rest sink.old }
{
    match reason {
        NoCall::Misrouted(misrouted) => say_misrouted(*misrouted, last, sink),
        NoCall::Refused(refusal) => say_refused(refusal, last, sink),
    }
}

/// Writes why a message reaches no method.
fn say_misrouted<S: Sink>(misrouted: Misrouted, last: bool, sink: &mut S) -> Result<(), Failed>
    ensures told { WritesAll (S.taken sink.old) (S.taken sink.new) (response_of (not_called (misrouted_as misrouted)) last) result }
    ensures cause { HasCause (S.faults sink.old) (S.faults sink.new) (IsErr result) }
    ensures rest { S.rest sink.new ≡ S.rest sink.old }
{
    respond_error(sink, misrouted.status(), &[misrouted.text()], last)
}

/// Writes why a method refuses its payload.
fn say_refused<S: Sink>(refusal: &Refusal, last: bool, sink: &mut S) -> Result<(), Failed>
    ensures told { WritesAll (S.taken sink.old) (S.taken sink.new) (response_of (not_called (Refused refusal.now)) last) result }
    ensures cause { HasCause (S.faults sink.old) (S.faults sink.new) (IsErr result) }
    ensures rest { S.rest sink.new ≡ S.rest sink.old }
{
    let (words, name) = refusal.words();
    let parts: [&str; 2] = [words, name];
    respond_error(sink, 400, &parts, last)
}
