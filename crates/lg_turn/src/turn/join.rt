//! How two passes become one again.
ghost use Rattle.std.specs.Prelude.{◌≡◌, ◌<◌, [], ◌∷◌, ◌++◌, length, map};
ghost use Rattle.lg_turn.specs.declared.view.Stage.TheVariants.{Idle};
ghost use Rattle.lg_turn.specs.Views.{BeginsWith, of_pass, number_in, seen_in, own_in, view_of, longer, drawn_in, leaving, MayFollow};
ghost use Rattle.lg_turn.specs.Steps.{HasAbsorbed, merged, moved};
ghost use Rattle.lg_turn.specs.Passes.{number_of, seen_by, own_of, moves_by, found_by, Follows, IsAway, IsPassOf, IsSamePass};

use super::{ROLL, SeatOf, SharedOf, Turn};
use crate::keeps::Keeps;
use crate::pass::Pass;
use crate::rule::{Absorb, Collect};

// Takes the other seat in.
fn take_in<V: Keeps>(shared: &SharedOf<V>, seat: &mut SeatOf<V>, other: SeatOf<V>)
    requires turn { (seat.old.table_id ≡ shared.now.table_id) × (other.table_id ≡ shared.now.table_id) × (shared.now.table_id.words ≡ 3) }
    requires away { (seat.old.me ≡ (view_of seat.old.me.0.accounts Idle, [])) × (other.me ≡ (view_of other.me.0.accounts Idle, [])) }
    ensures same { (seat.new.table_id ≡ seat.old.table_id) × (seat.new.id ≡ seat.old.id) }
    ensures both { seat.new.me ≡ (view_of (other.me.0.accounts ++ seat.old.me.0.accounts) Idle, []) }
{
    shared.join_seat::<Collect>(seat, other);
}

// Makes one pass of two, and takes the other one out of the roll. Answers the roll as it was.
fn absorb<V: Keeps>(shared: &SharedOf<V>, seat: &mut SeatOf<V>) -> u64
    requires turn { (seat.old.table_id ≡ shared.now.table_id) × (shared.now.table_id.words ≡ 3) }
    requires two { (length seat.old.me.0.accounts ≡ 2) × (seat.old.me ≡ (view_of seat.old.me.0.accounts Idle, [])) }
    ensures same { (seat.new.table_id ≡ seat.old.table_id) × (seat.new.id ≡ seat.old.id) }
    ensures absorbed { HasAbsorbed V.number seat.old.me result seat.new.me }
{
    shared.fetch_sub::<Absorb>(seat, ROLL, 1)
}

// Takes in the one pass of the other seat. Answers the roll as it was.
fn merge<V: Keeps>(shared: &SharedOf<V>, seat: &mut SeatOf<V>, other: SeatOf<V>) -> u64
    requires turn { (seat.old.table_id ≡ shared.now.table_id) × (other.table_id ≡ shared.now.table_id) × (shared.now.table_id.words ≡ 3) }
    requires mine { (length seat.old.me.0.accounts ≡ 1) × (seat.old.me ≡ (view_of seat.old.me.0.accounts Idle, [])) }
    requires others { (length other.me.0.accounts ≡ 1) × (other.me ≡ (view_of other.me.0.accounts Idle, [])) }
    ensures same { (seat.new.table_id ≡ seat.old.table_id) × (seat.new.id ≡ seat.old.id) }
    ensures joined { seat.new.me ≡ (view_of (map (moved (leaving result)) (merged seat.old.me.0.accounts other.me.0.accounts)) Idle, []) }
    ensures mine { BeginsWith (seen_in seat.new.me.0.accounts) (seen_in seat.old.me.0.accounts) }
    ensures others { BeginsWith (seen_in seat.new.me.0.accounts) (seen_in other.me.0.accounts) }
    ensures follows { MayFollow seat.old.me.0.accounts result × MayFollow other.me.0.accounts result }
    ensures drawn { number_in other.me.0.accounts < drawn_in result }
    ensures own { of_pass V.number (number_in seat.new.me.0.accounts) (seen_in seat.new.me.0.accounts) ≡ own_in seat.new.me.0.accounts }
{
    take_in(shared, seat, other);
    absorb(shared, seat)
}

impl<V: Keeps> Turn<V> {
    /// Takes the other pass into this one, which keeps its number and its own entries, and has then seen the longer of
    /// what both have seen, which begins with what each of them had. The entries of the other pass stay in the list.
    /// What the call finds in the roll comes behind all that both had found or left there, and the other's number was
    /// drawn before it: it is not drawn again. The pass keeps the moves of both. It takes no memory, and waits for nobody.
    pub fn join(&self, pass: &mut Pass<V>, other: Pass<V>)
        requires turn { IsPassOf self.now pass.old × IsPassOf self.now other }
        requires away { IsAway pass.old × IsAway other }
        ensures same { IsSamePass pass.old pass.new × (own_of pass.new ≡ own_of pass.old) }
        ensures away { IsAway pass.new }
        ensures seen { seen_by pass.new ≡ longer (seen_by pass.old) (seen_by other) }
        ensures begins { BeginsWith (seen_by pass.new) (seen_by pass.old) × BeginsWith (seen_by pass.new) (seen_by other) }
        ensures moves { moves_by pass.new ≡ leaving (found_by pass.new) ∷ moves_by pass.old ++ moves_by other }
        ensures follows { Follows (found_by pass.new) pass.old × Follows (found_by pass.new) other }
        ensures drawn { number_of other < drawn_in (found_by pass.new) }
    {
        let Pass { number: _, seat } = other;
        merge(&self.table.shared, &mut pass.seat, seat);
    }
}
