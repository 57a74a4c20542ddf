//! How a desk ends.
ghost use Rattle.std.specs.Prelude.{◌≡◌, ◌<◌, length, All, Some, IfOk, IfErr};
ghost use Rattle.lg_desk.specs.Desks.{desk_base, desk_callers, IsAt};
ghost use Rattle.lg_desk.specs.Journal.{NoneBehindEnd};
ghost use Rattle.lg_desk.specs.GoodEntry.{IsGoodEntry};
ghost use Rattle.lg_desk.specs.Replay.{replay};
ghost use Rattle.lg_turn.specs.Passes.{number_of, seen_by, own_of, found_by, IsAsBefore, HasMovedOnce};
ghost use Rattle.lg_turn.specs.Views.{BeginsWith, of_pass, out_in, looking};

use super::Desk;
use crate::journal::Journal;
use crate::kept::Kept;
use lg_calls::Engine;
use lg_turn::Pass;

impl<E: Engine> Desk<E> {
    /// Ends the desk where this pass alone is out, and answers the engine and the journal. The state of the engine is the
    /// replay of the journal from the base. The journal begins with what the pass has seen, and those of its entries that
    /// have the number of the pass are its own. Where the call finds another pass out, and there alone, the desk and the
    /// pass come back, and the pass is as before, but for its look at the roll. A pass that was dropped is out for good. It
    /// takes no memory, and waits for nobody.
    pub fn close(self, pass: Pass<Kept<E>>) -> Result<(E, Journal), (Desk<E>, Pass<Kept<E>>)>
        requires pass { IsAt self pass }
        ensures replayed { IfOk result (λ ended. E.state ended.0 ≡ replay (desk_base self) ended.1) }
        ensures begins { IfOk result (λ ended. BeginsWith ended.1 (seen_by pass)) }
        ensures own { IfOk result (λ ended. of_pass (λ e. e.pass) (number_of pass) ended.1 ≡ own_of pass) }
        ensures good { IfOk result (λ ended. All IsGoodEntry ended.1) }
        ensures none_behind { IfOk result (λ ended. NoneBehindEnd ended.1) }
        ensures desk { IfErr result (λ back. (back.0 ≡ self) × IsAt self back.1) }
        ensures same { IfErr result (λ back. IsAsBefore pass back.1 × HasMovedOnce looking pass back.1) }
        ensures other { IfErr result (λ back. 1 < out_in (found_by back.1)) }
    {
        let Desk { turn } = self;
        match turn.close(pass) {
            Ok(kept) => Ok(kept.finish()),
            Err((turn, pass)) => Err((Desk { turn }, pass)),
        }
    }

    /// Ends the desk, and answers the engine and the journal. The passes are as many as the desk has callers. The state of
    /// the engine is the replay of the journal from the base. The journal begins with what each pass has seen, and the
    /// entries with the number of a pass are its own, in their order. Where the passes are those that `make_all` gave,
    /// each entry has the number of one of them. It takes no memory, never refuses, and waits for nobody.
    pub fn close_all(self, passes: Vec<Pass<Kept<E>>>) -> (E, Journal)
        requires all { length passes.items ≡ desk_callers self }
        requires passes { All (IsAt self) passes.items }
        ensures replayed { E.state result.0 ≡ replay (desk_base self) result.1 }
        ensures begins { All (λ p. BeginsWith result.1 (seen_by p)) passes.items }
        ensures numbers { All (λ p. number_of p < desk_callers self) passes.items → All (λ e. e.pass < desk_callers self) result.1 }
        ensures own { All (λ p. of_pass (λ e. e.pass) (number_of p) result.1 ≡ own_of p) passes.items }
        ensures good { All IsGoodEntry result.1 }
        ensures none_behind { NoneBehindEnd result.1 }
    {
        let Desk { turn } = self;
        turn.close_all(passes).finish()
    }
}
