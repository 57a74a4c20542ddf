ghost use Rattle.std.specs.Prelude.{◌≡◌, ◌≤◌, [], Some, None, IfOk, option_map};
ghost use Rattle.lg_io.specs.CallList.{with_call};

use lg_base::NoMemory;
use std::alloc::Global;
use std::marker::Model;

/// The calls of an object, in order. Its room is there from its making; past it the list tells nothing any more.
#[derive(Drop)]
pub struct CallList<T> {
    calls: Vec<T>,
    is_whole: bool,
}

impl<T> Model for CallList<T> {
    ghost use Rattle.std.specs.Prelude.{◌-◌, Some, None, if◌then◌else◌, vec_len, vec_capacity};
    ghost use Rattle.lg_io.specs.CallList.{KeptCalls};

    ghost Value = { KeptCalls T };

    ghost view = { λ c. record {
      told = if c.is_whole then Some c.calls.items else None;
      room = vec_capacity c.calls - vec_len c.calls;
    } };
}

impl<T: Drop> CallList<T> {
    /// A list with room for so many calls.
    pub fn with_room(alloc: Global, room: usize) -> Result<CallList<T>, NoMemory>
        ensures told { IfOk result (λ c. c.told ≡ Some []) }
        ensures room { IfOk result (λ c. c.room ≡ room) }
    {
        Ok(CallList {
            calls: Vec::with_capacity(alloc, room)?,
            is_whole: true,
        })
    }

    /// Adds a call. It takes no memory.
    pub fn add(&mut self, call: T)
        ensures { self.new ≡ with_call self.old call }
    {
        if self.calls.len() == self.calls.capacity() {
            self.is_whole = false;
            return;
        }
        self.calls.push_reserved(call);
    }

    /// Tells nothing any more.
    pub fn lose(&mut self)
        ensures { self.new ≡ record self.old { told = None } }
    {
        self.is_whole = false;
    }

    /// Begins anew, with no call and no less room.
    pub fn restart(&mut self)
        ensures told { self.new.told ≡ Some [] }
        ensures room { self.old.room ≤ self.new.room }
    {
        self.calls.clear();
        self.is_whole = true;
    }

    /// The calls, while they are told.
    pub fn told(&self) -> Option<&[T]>
        ensures { option_map (λ s. s.now) result ≡ self.now.told }
    {
        if self.is_whole {
            Some(self.calls.as_slice())
        } else {
            None
        }
    }
}
