//! The journal of a life: each call that was entered, with who made it and its moment.
ghost use Rattle.std.specs.Prelude.{◌≡◌, ◌↔◌, List, [], ◌∷◌, ◌++◌, ◌-◌, length, take, IsTrue, OnOk, OnErr};
ghost use Rattle.std.specs.Option.{option_to_list};

use lg_base::{Moment, NoMemory};
use lg_calls::Request;
use std::alloc::Global;
use std::marker::Model;

/// Where a call came from.
#[derive(Clone, Copy, Debug, PartialEq, Eq)]
pub struct CallName {
    /// The number of the lane, counted from 0.
    pub lane: u16,
    /// The number of the connection among those of the lane in this life, counted from 0.
    pub connection: u64,
    /// The number of the message among those of the connection, counted from 0.
    pub nth: u64,
    /// The bytes of the payload.
    pub size: u32,
}

/// A call that was entered.
#[derive(Debug, Drop)]
pub struct Entry {
    /// The number of the pass that entered it: that of the lane.
    pub pass: u32,
    /// Where it came from.
    pub who: CallName,
    /// The moment that the lane's clock gave for it.
    pub now: Moment,
    /// What was asked.
    pub request: Request,
}

/// The calls of a life, in the order in which they were entered. Contracts see the list of its entries.
#[derive(Debug, Drop)]
pub struct Journal {
    entries: Vec<Entry>,
}

impl Model for Journal {
    ghost use Rattle.std.specs.Coded.{codes};
    ghost use Rattle.std.specs.Prelude.{List};
    ghost use Rattle.lg_base.specs.Amounts.{amounts_code};
    ghost use Rattle.lg_desk.specs.declared.journal.Entry.{Entry};

    ghost Value = { List Entry };

    ghost coded = { Prim.hlevel (codes, amounts_code) };

    ghost view = { λ journal. journal.entries.items };
}

impl Journal {
    /// A journal without entries.
    pub fn new(alloc: Global) -> Journal
        ensures { result ≡ [] }
    {
        Journal {
            entries: Vec::new(alloc),
        }
    }

    /// The journal of these entries, in their order. It takes no memory.
    pub(crate) fn of(entries: Vec<Entry>) -> Journal
        ensures { result ≡ entries.items }
    {
        Journal { entries }
    }

    /// How many calls were entered.
    pub fn len(&self) -> usize
        ensures { result ≡ length self.now }
    {
        self.entries.len()
    }

    /// Whether no call was entered.
    pub fn is_empty(&self) -> bool
        ensures { IsTrue result ↔ (self.now ≡ []) }
    {
        self.entries.is_empty()
    }

    /// The entries.
    pub fn entries(&self) -> &[Entry]
        ensures { result.now ≡ self.now }
    {
        &self.entries
    }

    /// Puts an entry behind the others. Where memory runs out the journal is as before.
    pub fn enter(&mut self, entry: Entry) -> Result<(), NoMemory>
        ensures ok { OnOk result (self.new ≡ self.old ++ entry ∷ []) }
        ensures err { OnErr result (self.new ≡ self.old) }
    {
        self.entries.push(entry)?;
        Ok(())
    }

    /// Takes the newest entry out again.
    pub fn withdraw(&mut self) -> Option<Entry>
        ensures newest { self.old ≡ self.new ++ option_to_list result }
        ensures others { self.new ≡ take (length self.old - 1) self.old }
    {
        self.entries.pop()
    }
}

#[cfg(test)]
mod tests {
    use super::*;
    use std::test::Fail;

    fn stop_at(nth: u64) -> Entry {
        Entry {
            pass: 3,
            who: CallName {
                lane: 3,
                connection: 5,
                nth,
                size: 2,
            },
            now: Moment(nth),
            request: Request::Stop,
        }
    }

    #[test]
    fn keeps_its_entries_in_order(rt: HostRuntime) -> Result<(), Fail> {
        let mut journal = Journal::new(rt.alloc());
        assert!(rt; journal.is_empty());
        for nth in 0..3 {
            journal.enter(stop_at(nth))?;
        }
        assert_eq!(rt; journal.len(), 3);
        let newest = journal.withdraw();
        assert!(rt; newest.is_some_and(|entry| entry.who.nth == 2));
        for (entry, nth) in journal.entries().iter().zip(0..) {
            assert_eq!(rt;
                (entry.pass, entry.who.nth, entry.now),
                (3, nth, Moment(nth))
            );
        }
        assert_eq!(rt; journal.len(), 2);
        Ok(())
    }
}
