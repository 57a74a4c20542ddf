//! A message whose head is whole and whose body arrives.
ghost use Rattle.std.specs.Prelude.{◌≡◌, ℕ, ◌<◌, ◌≤◌, List, ◌++◌, length, take, IfOk, IsTrue, ◌↔◌, option_map, IsUtf8};
ghost use Rattle.httparse.specs.Grammar.{RequestHead};
ghost use Rattle.lg_io.specs.declared.source.ReadStep.TheVariants.{Failed};
ghost use Rattle.lg_io.specs.Cause.{HasCause};
ghost use Rattle.lg_io.specs.Source.{received_after};
ghost use Rattle.lg_http.specs.Decisions.{IsHeadAt};
ghost use Rattle.lg_http.specs.Given.{IsGiven};
ghost use Rattle.lg_http.specs.Arrival.{Begins};

use crate::Message;
use crate::heads::Head;
use crate::window::read_behind;
use lg_base::{NoMemory, Text, TextFault};
use lg_io::{ReadStep, Source};
use std::alloc::Global;
use std::marker::Model;

/// The parts of the head that are kept, and the body, for which there is room as a whole.
#[derive(Drop)]
pub(crate) struct Arriving {
    verb: Text,
    target: Text,
    body: Vec<u8>,
    filled: usize,
    sized: bool,
    last: bool,
}

impl Model for Arriving {
    ghost use Rattle.std.specs.Prelude.{◌≤◌, length, take};
    ghost use Rattle.lg_http.specs.Arrival.{Arrival};

    ghost Value = { Arrival };

    ghost view = { λ a. record {
      verb = a.verb;
      target = a.target;
      size = length a.body.items;
      read = take a.filled a.body.items;
      sized = a.sized;
      last = a.last;
    } };

    ghost invariant = { λ a. a.filled ≤ length a.body.items };
}

impl Arriving {
    /// The message that begins with this head, with what came of its body.
    pub(crate) fn begin(alloc: Global, bytes: &[u8], head: &Head) -> Result<Arriving, NoMemory>
        requires { (grammar : RequestHead) × IsHeadAt bytes.now head.now grammar }
        ensures begins { IfOk result (Begins bytes.now head.now) }
        ensures within { IfOk result (λ a. length a.read ≤ a.size) }
    {
        let verb = text(alloc, head.verb.of(bytes))?;
        let target = text(alloc, head.target.of(bytes))?;
        let (body, filled) = room_for(alloc, head.body_len, &bytes[head.len..])?;
        Ok(Arriving {
            verb,
            target,
            body,
            filled,
            sized: head.sized,
            last: head.last,
        })
    }

    pub(crate) fn is_whole(&self) -> bool
        ensures { IsTrue result ↔ (length self.now.read ≡ self.now.size) }
    {
        self.filled == self.body.len()
    }

    /// Reads more of the body, and nothing behind it.
    pub(crate) fn fill<R: Source>(&mut self, source: &mut R) -> ReadStep
        requires { length self.old.read < self.old.size }
        ensures within { length self.new.read ≤ self.new.size }
        ensures filled { (got : List ℕ) × IsGiven result got × (self.new ≡ record self.old { read = self.old.read ++ got })
            × (R.received source.new ≡ option_map (received_after result got) (R.received source.old)) }
        ensures cause { HasCause (R.faults source.old) (R.faults source.new) (result ≡ Failed) }
        ensures rest { R.rest source.new ≡ R.rest source.old }
    {
        let step = read_behind(source, &mut self.body, self.filled);
        if let ReadStep::Bytes(count) = step {
            self.filled += count;
        }
        step
    }

    /// The message, once it is whole.
    pub(crate) fn into_message(self) -> Message
        requires { length self.read ≡ self.size }
        ensures verb { result.verb ≡ self.verb }
        ensures target { result.target ≡ self.target }
        ensures body { result.body.items ≡ self.read }
        ensures sized { result.sized ≡ self.sized }
        ensures last { result.last ≡ self.last }
    {
        Message {
            verb: self.verb,
            target: self.target,
            body: self.body,
            sized: self.sized,
            last: self.last,
        }
    }
}

/// Room for so many bytes, with the first of them in it, and how many those are.
fn room_for(alloc: Global, size: usize, bytes: &[u8]) -> Result<(Vec<u8>, usize), NoMemory>
    ensures size { IfOk result (λ room. length room.0.items ≡ size) }
    ensures within { IfOk result (λ room. room.1 ≤ size) }
    ensures read { IfOk result (λ room. take room.1 room.0.items ≡ take size bytes.now) }
{
    let mut room = vec![in alloc; 0; size]?;
    let filled = bytes.len().min(size);
    copy_to_front(&mut room, &bytes[..filled]);
    Ok((room, filled))
}

fn copy_to_front(room: &mut [u8], bytes: &[u8])
    requires { length bytes.now ≤ length room.old }
    ensures { take (length bytes.now) room.new ≡ bytes.now }
{
    room[..bytes.len()].copy_from_slice(bytes);
}

fn text(alloc: Global, bytes: &[u8]) -> Result<Text, NoMemory>
    requires { IsUtf8 bytes.now }
    ensures { IfOk result (λ text. text ≡ bytes.now) }
{
    match Text::text(alloc, bytes) {
        Ok(text) => Ok(text),
        Err(TextFault::NoMemory) => Err(NoMemory),
        Err(TextFault::NotUtf8) => unreachable!(),
    }
}
