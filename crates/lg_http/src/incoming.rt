//! The message that comes: its head in the window, and then its body beside it.
ghost use Rattle.std.specs.Prelude.{◌≡◌, ◌⊎◌, ℕ, ◌+◌, List, [], ◌++◌, length, Some, None, ◌<◌, IfOk, IsTrue, ◌↔◌, option_map};
ghost use Rattle.lg_io.specs.declared.source.ReadStep.TheVariants.{Failed};
ghost use Rattle.lg_http.specs.declared.message.Next.TheVariants as Answer;
ghost use Rattle.lg_http.specs.Answers.{max_quiets, Counts, Hears, Reads, quiets_after};
ghost use Rattle.lg_io.specs.Cause.{HasCause};
ghost use Rattle.lg_io.specs.Source.{received_after};
ghost use Rattle.lg_http.specs.Given.{IsGiven, OnNothing};
ghost use Rattle.lg_http.specs.Incoming.{IsKept, IsSound, IsReady, HasRoom, bytes_of, room_of, Finds, ReadsOn};
ghost use Rattle.lg_http.specs.Messages.{IsUndecided};

use crate::Next;
use crate::arriving::Arriving;
use crate::heads::{Decision, decide};
use crate::window::Window;
use lg_base::NoMemory;
use lg_io::{ReadStep, Source};
use std::alloc::Global;

/// How often a source may be quiet in a row.
const MAX_QUIETS: u16 = 600;

/// The bytes that came and were not given out: those in the window, which is the whole head once a body arrives; whether
/// they are known to be undecided; and how often the source was quiet since the last one.
#[derive(Drop)]
pub(crate) struct Incoming {
    pub window: Window,
    pub arriving: Option<Arriving>,
    pub is_waiting: bool,
    pub quiets: u16,
}

impl Incoming {
    pub(crate) fn make(alloc: Global) -> Result<Incoming, NoMemory>
        ensures empty { IfOk result (λ incoming. bytes_of incoming ≡ []) }
        ensures ready { IfOk result IsReady }
        ensures quiets { IfOk result (λ incoming. incoming.quiets ≡ 0) }
    {
        Ok(Incoming {
            window: Window::make(alloc)?,
            arriving: None,
            is_waiting: false,
            quiets: 0,
        })
    }

    /// The answer that the bytes at hand give, if they give one.
    pub(crate) fn find(&mut self, alloc: Global) -> Option<Next>
        requires { IsSound self.old }
        ensures found { Finds self.old result self.new }
        ensures sound { IsSound self.new }
        ensures quiets { self.new.quiets ≡ self.old.quiets }
    {
        match self.arriving.take() {
            None => self.find_head(alloc),
            Some(arriving) => self.find_body(arriving),
        }
    }

    fn find_head(&mut self, alloc: Global) -> Option<Next>
        requires { self.old.arriving ≡ None }
        ensures found { Finds self.old result self.new }
        ensures sound { IsSound self.new }
        ensures quiets { self.new.quiets ≡ self.old.quiets }
    {
        let head = match decide(self.window.pending()) {
            Decision::Accept(head) => head,
            Decision::Bad(status) => return Some(Next::Bad(status)),
            Decision::NotYet => return None,
        };
        let Ok(arriving) = Arriving::begin(alloc, self.window.pending(), &head) else {
            return Some(Next::NoMemory);
        };
        if arriving.is_whole() {
            self.window.skip(head.len + head.body_len);
            return Some(Next::Message(arriving.into_message()));
        }
        self.window.keep(head.len);
        self.arriving = Some(arriving);
        None
    }

    fn find_body(&mut self, arriving: Arriving) -> Option<Next>
        requires none { self.old.arriving ≡ None }
        requires kept { IsKept self.old.window (Some arriving) }
        ensures found { Finds (record self.old { arriving = Some arriving }) result self.new }
        ensures sound { IsSound self.new }
        ensures quiets { self.new.quiets ≡ self.old.quiets }
    {
        if arriving.is_whole() {
            self.window.keep(0);
            return Some(Next::Message(arriving.into_message()));
        }
        self.arriving = Some(arriving);
        None
    }

    /// Reads more of the head, or more of the body and nothing behind it.
    pub(crate) fn fill<R: Source>(&mut self, source: &mut R) -> ReadStep
        requires sound { IsSound self.old }
        requires room { HasRoom self.old }
        ensures filled { (got : List ℕ) × IsGiven result got × (bytes_of self.new ≡ bytes_of self.old ++ got)
            × (room_of self.new + length got ≡ room_of self.old)
            × (R.received source.new ≡ option_map (received_after result got) (R.received source.old)) }
        ensures sound { IsSound self.new }
        ensures stays { OnNothing result (HasRoom self.new) }
        ensures quiets { self.new.quiets ≡ self.old.quiets }
        ensures cause { HasCause (R.faults source.old) (R.faults source.new) (result ≡ Failed) }
        ensures rest { R.rest source.new ≡ R.rest source.old }
    {
        match &mut self.arriving {
            None => self.window.fill(source),
            Some(arriving) => arriving.fill(source),
        }
    }

    fn is_empty(&self) -> bool
        requires { IsSound self.now }
        ensures { IsTrue result ↔ (bytes_of self.now ≡ []) }
    {
        self.window.pending().is_empty()
    }

    /// The answer that the bytes at hand give, if they give one. They are looked at only where some came since the last time.
    fn look(&mut self, alloc: Global) -> Option<Next>
        requires { IsReady self.old }
        ensures found { Finds self.old result self.new }
        ensures ready { IsReady self.new }
        ensures quiets { self.new.quiets ≡ self.old.quiets }
    {
        if self.is_waiting {
            return None;
        }
        let found = self.find(alloc);
        self.is_waiting = found.is_none();
        found
    }

    /// Reads more, and answers where nothing came.
    fn read<R: Source>(&mut self, source: &mut R) -> Option<Next>
        requires ready { IsReady self.old }
        requires room { HasRoom self.old }
        requires undecided { IsUndecided (bytes_of self.old) }
        ensures reads { ReadsOn self.old result self.new (R.received source.old) (R.received source.new) }
        ensures ready { IsReady self.new }
        ensures cause { HasCause (R.faults source.old) (R.faults source.new) (result ≡ Some Answer.Failed) }
        ensures rest { R.rest source.new ≡ R.rest source.old }
    {
        match self.fill(source) {
            ReadStep::Bytes(_) => {
                self.is_waiting = false;
                self.quiets = 0;
                None
            }
            ReadStep::End => Some(if self.is_empty() {
                Next::End
            } else {
                Next::Torn
            }),
            ReadStep::Quiet => Some(self.count_quiet()),
            ReadStep::Failed => Some(Next::Failed),
        }
    }

    /// Counts that the source was quiet once more.
    fn count_quiet(&mut self) -> Next
        requires { self.old.quiets < max_quiets }
        ensures counts { Counts self.old.quiets result self.new.quiets }
        ensures same { self.new ≡ record self.old { quiets = self.new.quiets } }
        ensures few { self.new.quiets < max_quiets }
        ensures quiet { (result ≡ Answer.Quiet) ⊎ (result ≡ Answer.Idle) }
    {
        if self.quiets + 1 == MAX_QUIETS {
            return Next::Idle;
        }
        self.quiets += 1;
        Next::Quiet
    }

    /// The next answer, with as many reads as it takes.
    pub(crate) fn next<R: Source>(&mut self, alloc: Global, source: &mut R) -> Next
        requires { IsReady self.old }
        ensures reads { (got : List ℕ) × Hears (R.received source.old) result got (R.received source.new)
            × Reads (bytes_of self.old ++ got) result (bytes_of self.new)
            × Counts (quiets_after got self.old.quiets) result self.new.quiets }
        ensures asks { IsUndecided (bytes_of self.old) ⊎ (source.new ≡ source.old) }
        ensures ready { IsReady self.new }
        ensures cause { HasCause (R.faults source.old) (R.faults source.new) (result ≡ Answer.Failed) }
        ensures rest { R.rest source.new ≡ R.rest source.old }
    {
        // A head that is cut short is looked at from its front again: a parser that takes it up where the bytes ended
        // would keep a state of its own, and a head is short.
        'pieces: loop {
            if let Some(answer) = self.look(alloc) {
                return answer;
            }
            if let Some(answer) = self.read(source) {
                return answer;
            }
        }
    }
}
