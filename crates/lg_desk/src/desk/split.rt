//! How a pass is split in two.
ghost use Rattle.std.specs.Prelude.{◌≡◌, ◌<◌, Some, None, IfOk, IfErr};
ghost use Rattle.lg_desk.specs.Desks.{desk_callers, IsAt};
ghost use Rattle.lg_turn.specs.Passes.{number_of, found_by, found_before, fault_at, excess_of, IsAsBefore, HasMovedOnce, HasMovedTwice, IsSplitOff};
ghost use Rattle.lg_turn.specs.Views.{drawn_in, drawing, releasing};

use super::Desk;
use crate::kept::Kept;
use lg_calls::Engine;
use lg_turn::{Pass, TurnFault};

impl<E: Engine> Desk<E> {
    /// Makes a second pass of one, as the turn does. The second has the number that the call drew, which no pass had
    /// before, has seen what the first has, and has made nothing; the first stays as it is, but for its moves on the roll.
    /// It answers `Spent` exactly where it finds 4,294,967,168 numbers drawn or more, and else `Many` exactly where it
    /// finds as many passes out as there are callers, or more; a split that is under way counts. It takes no memory, and
    /// waits for nobody.
    pub fn split(&self, pass: &mut Pass<Kept<E>>) -> Result<Pass<Kept<E>>, TurnFault>
        requires pass { IsAt self.now pass.old }
        ensures pass { IsAt self.now pass.new }
        ensures same { IsAsBefore pass.old pass.new }
        ensures moved { IfOk result (λ _. HasMovedOnce drawing pass.old pass.new) }
        ensures ok { IfOk result (λ _. fault_at (desk_callers self.now) (found_by pass.new) ≡ None) }
        ensures refused { IfErr result (λ fault. HasMovedTwice drawing (releasing (excess_of fault)) pass.old pass.new) }
        ensures err { IfErr result (λ fault. fault_at (desk_callers self.now) (found_before pass.new) ≡ Some fault) }
        ensures new { IfOk result (λ other. IsAt self.now other × IsSplitOff pass.new (drawn_in (found_by pass.new)) other) }
        ensures above { IfOk result (λ other. number_of pass.old < number_of other) }
    {
        self.turn.split(pass)
    }
}
