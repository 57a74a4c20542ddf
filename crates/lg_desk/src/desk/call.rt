//! How a pass enters a call, and how it learns whether the journal is over.
ghost use Rattle.std.specs.Prelude.{◌≡◌, ◌^◌, ◌<◌};
ghost use Rattle.lg_calls.specs.Request.{IsInRange};
ghost use Rattle.lg_desk.specs.declared.journal.Entry.{Entry};
ghost use Rattle.lg_desk.specs.Desk.{IsStill, HasLooked, HasCalled};
ghost use Rattle.lg_desk.specs.Desks.{desk_base, IsAt};
ghost use Rattle.lg_desk.specs.Journal.{is_over};
ghost use Rattle.lg_turn.specs.Passes.{number_of, seen_by};

use super::Desk;
use crate::fault::DeskFault;
use crate::journal::{CallName, Entry};
use crate::kept::Kept;
use lg_base::Moment;
use lg_calls::{Engine, Reply, Request};
use lg_turn::Pass;
use std::alloc::Global;
use std::sync::Wait;

impl<E: Engine> Desk<E> {
    /// Waits for the turn, and enters a call at a moment below 2^62 ms behind all that was entered. The journal that it
    /// finds begins with what the pass had seen. The answer is that of the scheduler of one thread behind this journal.
    /// `Over(n)` comes exactly where the journal found, of `n` entries, is over; `Full(n)` where the scheduler is full, and
    /// then the call is entered too. At `Over` and `NoMemory` nothing is entered, and the state is as before.
    pub fn call<R: Wait>(
        &self,
        rt: &R,
        alloc: Global,
        pass: &mut Pass<Kept<E>>,
        who: CallName,
        now: Moment,
        request: Request,
    ) -> Result<Reply, DeskFault>
        requires pass { IsAt self.now pass.old }
        requires in_time { now.0 < 2 ^ 62 }
        requires in_range { IsInRange request }
        ensures pass { IsAt self.now pass.new }
        ensures still { IsStill pass.old pass.new }
        ensures called { let e : Entry = record { pass = number_of pass.old; who = who; now = now; request = request } in
            HasCalled (desk_base self.now) e result pass.old pass.new }
    {
        let mut kept = self.turn.take(rt, pass);
        let entry = Entry {
            pass: pass.number(),
            who,
            now,
            request,
        };
        let answer = kept.call(alloc, entry);
        self.turn.give(pass, kept);
        answer
    }

    /// Waits for the turn, and tells whether the journal that it finds is over; the pass has then seen this journal. It
    /// takes no memory, and enters nothing.
    pub fn stopped<R: Wait>(&self, rt: &R, pass: &mut Pass<Kept<E>>) -> bool
        requires pass { IsAt self.now pass.old }
        ensures pass { IsAt self.now pass.new }
        ensures still { IsStill pass.old pass.new }
        ensures looked { HasLooked pass.old pass.new }
        ensures over { result ≡ is_over (seen_by pass.new) }
    {
        let kept = self.turn.take(rt, pass);
        let over = kept.is_over();
        self.turn.give(pass, kept);
        over
    }
}
