//! A life: an engine, and the journal of the calls that moved it on.
ghost use Rattle.std.specs.Prelude.{◌≡◌, ◌^◌, ◌-◌, ◌<◌, min, false, [], All};
ghost use Rattle.std.proofs.Props.{props};
ghost use Rattle.lg_calls.specs.Engine.{Steps};
ghost use Rattle.lg_calls.specs.Request.{IsInRange};
ghost use Rattle.lg_desk.specs.GoodEntry.{IsGoodEntry, good_entries-prop};
ghost use Rattle.lg_desk.specs.Journal.{has_stop, is_over, payload_bytes, NoneBehindEnd};
ghost use Rattle.luigid.specs.Entering.{Enters};

use lg_calls::{Engine, Reply, StepFault};
use lg_desk::{Entry, Journal};
use std::alloc::Global;

/// The most entries of a journal.
const MAX_ENTRIES: usize = 200_000;

/// The most bytes of payload of a journal, in sum.
const MAX_BYTES: u64 = 268_435_456;

/// The scheduler of one thread, with its journal.
#[derive(Drop)]
pub struct Life<E> {
    /// What makes the steps; it stands for the state behind the last entry.
    engine: E,
    /// The calls, in order.
    journal: Journal,
    /// Whether the journal holds a `stop`.
    stopped: bool,
    /// The bytes of the payloads in sum; 2^64 - 1 where there are more.
    bytes: u64,
    pub ghost is_good: { All IsGoodEntry journal } by { good_entries-prop journal },
    pub ghost is_open: { NoneBehindEnd journal } by { Prim.hlevel props },
    pub ghost is_marked: { stopped ≡ has_stop journal },
    pub ghost is_counted: { bytes ≡ min (payload_bytes journal) (2 ^ 64 - 1) },
}

impl<E: Engine> Life<E> {
    /// A life that begins with this engine.
    pub fn begin(alloc: Global, engine: E) -> Life<E>
        ensures engine { result.engine ≡ engine }
        ensures journal { result.journal ≡ [] }
    {
        Life {
            engine,
            journal: Journal::new(alloc),
            stopped: false,
            bytes: 0,
        }
    }

    /// Whether the journal holds a `stop`.
    pub fn is_stopped(&self) -> bool
        ensures { result ≡ has_stop self.now.journal }
    {
        self.stopped
    }

    /// Whether the journal is over: it holds a `stop`, or has its most entries or its most bytes.
    pub fn is_over(&self) -> bool
        ensures { result ≡ is_over self.now.journal }
    {
        self.stopped || self.journal.len() >= MAX_ENTRIES || self.bytes >= MAX_BYTES
    }

    /// The journal, at the end of the life.
    pub fn into_journal(self) -> Journal
        ensures same { result ≡ self.journal }
        ensures good { All IsGoodEntry result }
        ensures none_behind { NoneBehindEnd result }
    {
        let Life {
            engine: _,
            journal,
            stopped: _,
            bytes: _,
        } = self;
        journal
    }

    /// Enters a call, and makes its step. A call that finds the scheduler full is entered too, and the state is as before.
    /// Where memory runs out nothing is entered, and the state is as before.
    pub fn call(&mut self, alloc: Global, entry: Entry) -> Result<Reply, StepFault>
        requires in_time { entry.now.0 < 2 ^ 62 }
        requires in_range { IsInRange entry.request }
        requires not_over { is_over self.old.journal ≡ false }
        ensures entered { Enters self.old.journal entry self.new.journal result }
        ensures stepped { Steps (E.state self.old.engine) entry.now.0 entry.request (E.state self.new.engine) result }
    {
        let now = entry.now;
        let stops = entry.request.is_stop();
        let size = u64::from(entry.who.size);
        self.journal.enter(entry)?;
        let newest = self.journal.len() - 1;
        match self
            .engine
            .step(alloc, now, &self.journal.entries()[newest].request)
        {
            Err(StepFault::NoMemory) => {
                self.journal.withdraw();
                Err(StepFault::NoMemory)
            }
            outcome => {
                self.stopped = self.stopped || stops;
                self.bytes = self.bytes.saturating_add(size);
                outcome
            }
        }
    }
}
