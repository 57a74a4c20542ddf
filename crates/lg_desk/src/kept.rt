//! What lies under the turn of a desk: an engine, and the journal of the calls that moved it on.
ghost use Rattle.std.specs.Prelude.{◌≡◌, ◌+◌, ◌-◌, ◌^◌, ◌<◌, ◌++◌, [], min, false, All, OnOk, IfOk, IfErr, vec_len, vec_capacity};
ghost use Rattle.std.specs.Coded.{codes, Coded-set};
ghost use Rattle.std.proofs.Props.{props};
ghost use Rattle.lg_base.specs.Amounts.{amounts_code};
ghost use Rattle.lg_calls.specs.Request.{IsInRange, is_stop};
ghost use Rattle.lg_desk.specs.Answers.{IsAnswer, entered_of};
ghost use Rattle.lg_desk.specs.Faults.{told_of};
ghost use Rattle.lg_desk.specs.GoodEntry.{IsGoodEntry, good_entries-prop};
ghost use Rattle.lg_desk.specs.Journal.{has_stop, is_over, payload_bytes, NoneBehindEnd};
ghost use Rattle.lg_desk.specs.Replay.{replay};

use crate::fault::DeskFault;
use crate::first::First;
use crate::journal::{Entry, Journal};
use lg_base::NoMemory;
use lg_calls::{Engine, Reply, StepFault};
use std::alloc::Global;

/// The most entries of a journal.
const MAX_ENTRIES: usize = 200_000;

/// The most bytes of payload of a journal, in sum.
const MAX_BYTES: u64 = 268_435_456;

/// The scheduler of one thread, with its journal. The state for which the engine stands is the replay of the journal from
/// that of the first engine. Until the journal is over it has room for one entry more.
#[derive(Drop)]
pub struct Kept<E: Engine> {
    /// What makes the steps.
    engine: E,
    /// The calls, in order.
    entries: Vec<Entry>,
    /// Whether the journal holds a `stop`.
    stopped: bool,
    /// The bytes of the payloads in sum; 2^64 - 1 where there are more.
    bytes: u64,
    /// The engine as it was handed in.
    first: First<E>,
    pub ghost is_replayed: { E.state engine ≡ replay (E.state first.value) entries.items } by { Coded-set (Prim.hlevel (codes, amounts_code)) _ _ },
    pub ghost is_good: { All IsGoodEntry entries.items } by { good_entries-prop entries.items },
    pub ghost is_open: { NoneBehindEnd entries.items } by { Prim.hlevel props },
    pub ghost is_marked: { stopped ≡ has_stop entries.items },
    pub ghost is_counted: { bytes ≡ min (payload_bytes entries.items) (2 ^ 64 - 1) },
    pub ghost has_room: { is_over entries.items ≡ false → vec_len entries < vec_capacity entries } by { Prim.hlevel props },
}

impl<E: Engine> Kept<E> {
    /// Begins with this engine and an empty journal. Where memory runs out the engine comes back.
    pub(crate) fn begin(alloc: Global, engine: E) -> Result<Kept<E>, (E, NoMemory)>
        ensures engine { IfOk result (λ kept. kept.engine ≡ engine) }
        ensures base { IfOk result (λ kept. kept.first.value ≡ engine) }
        ensures empty { IfOk result (λ kept. kept.entries.items ≡ []) }
        ensures err { IfErr result (λ back. back.0 ≡ engine) }
    {
        let Ok(entries) = Vec::with_capacity(alloc, 1) else {
            return Err((engine, NoMemory));
        };
        let first = First::of(&engine);
        Ok(Kept {
            engine,
            entries,
            stopped: false,
            bytes: 0,
            first,
        })
    }

    /// Whether the journal is over: it holds a `stop`, or has its most entries or its most bytes.
    pub(crate) fn is_over(&self) -> bool
        ensures { result ≡ is_over self.now.entries.items }
    {
        self.stopped || self.entries.len() >= MAX_ENTRIES || self.bytes >= MAX_BYTES
    }

    /// Enters a call, and makes its step, where the journal isn't over. A call that finds the scheduler full is entered
    /// too, and the state is as before. Where memory runs out nothing is entered, and the state is as before.
    pub(crate) fn call(&mut self, alloc: Global, entry: Entry) -> Result<Reply, DeskFault>
        requires in_time { entry.now.0 < 2 ^ 62 }
        requires in_range { IsInRange entry.request }
        ensures base { self.new.first.value ≡ self.old.first.value }
        ensures answer { IsAnswer (E.state self.old.first.value) self.old.entries.items entry result }
        ensures entered { self.new.entries.items ≡ self.old.entries.items ++ entered_of entry result }
    {
        if self.is_over() {
            drop(entry);
            return Err(DeskFault::Over(self.entries.len() as u64));
        }
        if self.make_room(entry.request.is_stop()).is_err() {
            drop(entry);
            return Err(DeskFault::NoMemory);
        }
        let reply = self.enter(alloc, entry)?;
        Ok(reply)
    }

    // Makes room for a call, and for one entry more behind it, where the call isn't a `stop`. Where memory runs out the
    // room is as before.
    fn make_room(&mut self, stops: bool) -> Result<(), NoMemory>
        requires not_over { is_over self.old.entries.items ≡ false }
        ensures base { self.new.first.value ≡ self.old.first.value }
        ensures same { self.new.entries.items ≡ self.old.entries.items }
        ensures room { OnOk result (stops ≡ false → vec_len self.new.entries + 1 < vec_capacity self.new.entries) }
    {
        if !stops {
            self.entries.reserve(2)?;
        }
        Ok(())
    }

    // Makes the step of a call and enters it, where there is room. Where memory runs out nothing is entered, and the state
    // is as before.
    fn enter(&mut self, alloc: Global, entry: Entry) -> Result<Reply, StepFault>
        requires in_time { entry.now.0 < 2 ^ 62 }
        requires in_range { IsInRange entry.request }
        requires not_over { is_over self.old.entries.items ≡ false }
        requires room { is_stop entry.request ≡ false → vec_len self.old.entries + 1 < vec_capacity self.old.entries }
        ensures base { self.new.first.value ≡ self.old.first.value }
        ensures answer { IsAnswer (E.state self.old.first.value) self.old.entries.items entry (told_of result) }
        ensures entered { self.new.entries.items ≡ self.old.entries.items ++ entered_of entry (told_of result) }
    {
        let stops = entry.request.is_stop();
        let size = u64::from(entry.who.size);
        match self.engine.step(alloc, entry.now, &entry.request) {
            Err(StepFault::NoMemory) => {
                drop(entry);
                Err(StepFault::NoMemory)
            }
            outcome => {
                self.entries.push_reserved(entry);
                self.stopped = self.stopped || stops;
                self.bytes = self.bytes.saturating_add(size);
                outcome
            }
        }
    }

    /// The engine and the journal, at the end.
    pub(crate) fn finish(self) -> (E, Journal)
        ensures engine { result.0 ≡ self.engine }
        ensures journal { result.1 ≡ self.entries.items }
    {
        let Kept {
            engine,
            entries,
            stopped: _,
            bytes: _,
            first: _,
        } = self;
        (engine, Journal::of(entries))
    }
}
