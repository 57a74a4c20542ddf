//! How a pass gives the value back: first into the slot, and then the next ticket is served.
ghost use Rattle.std.specs.Prelude.{◌≡◌, [], ◌∷◌, ◌++◌, length, map, drop, All, Some, None};
ghost use Rattle.lg_turn.specs.declared.view.Stage.TheVariants.{Idle};
ghost use Rattle.lg_turn.specs.Views.{of_pass, view_of};
ghost use Rattle.lg_turn.specs.Rule.{Fits};
ghost use Rattle.lg_turn.specs.Steps.{MayGive, after_give};
ghost use Rattle.lg_turn.specs.Passes.{number_of, base_of, seen_by, own_of, moves_by, IsAway, HasTurn, IsPassOf, IsSamePass, AddsAtMostOne};

use super::{SERVING, SeatOf, SharedOf, Turn};
use crate::keeps::Keeps;
use crate::pass::Pass;
use crate::rule::Advance;

// Moves the value into the slot.
fn put_back<V: Keeps>(shared: &SharedOf<V>, seat: &mut SeatOf<V>, value: V)
    requires turn { seat.old.table_id ≡ shared.now.table_id }
    requires empty { seat.old.me.1 ≡ (0, None) ∷ [] }
    ensures same { (seat.new.table_id ≡ seat.old.table_id) × (seat.new.id ≡ seat.old.id) }
    ensures filled { seat.new.me ≡ (seat.old.me.0, (0, Some value) ∷ []) }
{
    let before = shared.exchange(seat, 0, Some(value));
    let None = before else { unreachable!() };
}

// Brings the value home, and then serves the next ticket.
fn bring_home<V: Keeps>(shared: &SharedOf<V>, seat: &mut SeatOf<V>, value: V)
    requires turn { (seat.old.table_id ≡ shared.now.table_id) × (shared.now.table_id.words ≡ 3) }
    requires empty { seat.old.me.1 ≡ (0, None) ∷ [] }
    requires may_give { MayGive V.items V.number V.base seat.old.me.0 value }
    ensures same { (seat.new.table_id ≡ seat.old.table_id) × (seat.new.id ≡ seat.old.id) }
    ensures given { seat.new.me ≡ (view_of (map (after_give (V.items value)) seat.old.me.0.accounts) Idle, []) }
    ensures fits { All (Fits V.items V.number V.base (V.base value) (V.items value)) seat.new.me.0.accounts }
{
    put_back(shared, seat, value);
    shared.fetch_add::<Advance>(seat, SERVING, 1);
    shared.wake_all(SERVING);
}

impl<V: Keeps> Turn<V> {
    /// Gives the value back. Its list may be longer by one entry, which has the number of the pass. The pass has then
    /// seen this list, and the entry is the last of its own. The list has all entries that the pass made, and none else
    /// of its number. It takes no memory and waits for nobody.
    pub fn give(&self, pass: &mut Pass<V>, value: V)
        requires turn { IsPassOf self.now pass.old }
        requires has { HasTurn pass.old }
        requires base { base_of pass.old ≡ Some (V.base value) }
        requires added { AddsAtMostOne V.number (number_of pass.old) (seen_by pass.old) (V.items value) }
        ensures same { IsSamePass pass.old pass.new }
        ensures moves { moves_by pass.new ≡ moves_by pass.old }
        ensures away { IsAway pass.new }
        ensures seen { seen_by pass.new ≡ V.items value }
        ensures added { own_of pass.new ≡ own_of pass.old ++ drop (length (seen_by pass.old)) (V.items value) }
        ensures own { of_pass V.number (number_of pass.new) (V.items value) ≡ own_of pass.new }
    {
        bring_home(&self.table.shared, &mut pass.seat, value);
    }
}
