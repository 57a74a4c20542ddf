//! How two passes become one again.
ghost use Rattle.std.specs.Prelude.{◌≡◌, ◌<◌, ◌∷◌, ◌++◌};
ghost use Rattle.lg_desk.specs.Desks.{IsAt};
ghost use Rattle.lg_turn.specs.Passes.{number_of, seen_by, own_of, moves_by, found_by, Follows, IsSamePass};
ghost use Rattle.lg_turn.specs.Views.{BeginsWith, drawn_in, leaving, longer};

use super::Desk;
use crate::kept::Kept;
use lg_calls::Engine;
use lg_turn::Pass;

impl<E: Engine> Desk<E> {
    /// Takes the other pass into this one, as the turn does. This one keeps its number and its own entries, and has then
    /// seen the longer of what both have seen. The entries of the other pass stay in the journal, and its number is not
    /// drawn again. It takes no memory, and waits for nobody.
    pub fn join(&self, pass: &mut Pass<Kept<E>>, other: Pass<Kept<E>>)
        requires pass { IsAt self.now pass.old }
        requires other { IsAt self.now other }
        ensures pass { IsAt self.now pass.new }
        ensures same { IsSamePass pass.old pass.new × (own_of pass.new ≡ own_of pass.old) }
        ensures seen { seen_by pass.new ≡ longer (seen_by pass.old) (seen_by other) }
        ensures begins { BeginsWith (seen_by pass.new) (seen_by pass.old) × BeginsWith (seen_by pass.new) (seen_by other) }
        ensures moves { moves_by pass.new ≡ leaving (found_by pass.new) ∷ moves_by pass.old ++ moves_by other }
        ensures follows { Follows (found_by pass.new) pass.old × Follows (found_by pass.new) other }
        ensures drawn { number_of other < drawn_in (found_by pass.new) }
    {
        self.turn.join(pass, other);
    }
}
