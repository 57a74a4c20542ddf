//! How a turn ends: all passes come together again, and with them the value.
ghost use Rattle.std.specs.Prelude.{◌≡◌, ◌<◌, ◌≤◌, [], length, flat_map, All, Some, IfOk, IfErr};
ghost use Rattle.lg_turn.specs.declared.view.Stage.TheVariants.{Idle, Alone};
ghost use Rattle.lg_turn.specs.Views.{BeginsWith, of_pass, view_of, out_in, looking};
ghost use Rattle.lg_turn.specs.Rule.{passes_of, value_count};
ghost use Rattle.lg_turn.specs.Steps.{HasCounted};
ghost use Rattle.lg_turn.specs.Closings.{Ends};
ghost use Rattle.lg_turn.specs.Passes.{number_of, base_of, seen_by, own_of, found_by, IsAway, IsPassOf, IsAsBefore, HasMovedOnce, accounts_of, callers_of, origin_of};

use super::{ROLL, SeatOf, SharedOf, TableOf, Turn};
use crate::keeps::Keeps;
use crate::pass::Pass;
use crate::rule::{Collect, Count};

// One seat that answers for all passes.
fn collect<V: Keeps>(shared: &SharedOf<V>, mut passes: Vec<Pass<V>>) -> SeatOf<V>
    requires turn { shared.now.table_id.words ≡ 3 }
    requires some { 0 < length passes.items }
    requires passes { All (λ p. (p.seat.table_id ≡ shared.now.table_id) × IsAway p) passes.items }
    ensures turn { result.table_id ≡ shared.entry.now.table_id }
    ensures all { result.me ≡ (view_of (flat_map accounts_of passes.items) Idle, []) }
{
    let Some(
        Pass {
            number: _,
            mut seat,
        },
    ) = passes.pop()
    else {
        unreachable!()
    };
    while let Some(
        Pass {
            number: _,
            seat: other,
        },
    ) = passes.pop()
    {
        shared.join_seat::<Collect>(&mut seat, other);
    }
    seat
}

// Reads in the roll whether another pass is out. Answers the roll.
fn count<V: Keeps>(shared: &SharedOf<V>, seat: &mut SeatOf<V>) -> u64
    requires turn { (seat.old.table_id ≡ shared.now.table_id) × (shared.now.table_id.words ≡ 3) }
    requires away { (0 < length seat.old.me.0.accounts) × (seat.old.me ≡ (view_of seat.old.me.0.accounts Idle, [])) }
    ensures same { (seat.new.table_id ≡ seat.old.table_id) × (seat.new.id ≡ seat.old.id) }
    ensures counted { HasCounted seat.old.me result seat.new.me }
{
    shared.load::<Count>(seat, ROLL)
}

// Closes the table with a seat that takes up all places, and answers the value.
fn value_of<V: Keeps>(table: TableOf<V>, seat: SeatOf<V>) -> V
    requires turn { (seat.table_id ≡ table.shared.table_id) × (table.shared.table_id.slots ≡ 1) }
    requires all { table.shared.key.callers ≤ passes_of table.shared.key.callers seat.me.0 }
    requires without { value_count seat.me.0.stage ≡ 0 }
    ensures ends { Ends V.items V.number V.base table.shared.key.callers (V.base table.shared.key.first.value) seat.me.0 result }
{
    let mut closed = table.close_with(seat);
    let slot = closed.take(0);
    closed.free();
    let Some(value) = slot else { unreachable!() };
    value
}

impl<V: Keeps> Turn<V> {
    /// Ends the turn where this pass alone is out, and answers the value. The list for which the value stands begins
    /// with what the pass has seen, and those of its entries that have the number of the pass are its own. Where the
    /// call finds another pass out, and there alone, the turn and the pass come back, and the pass is as before, but
    /// for its look at the roll, which comes behind all that it had found or left there. A pass that was dropped is out
    /// for good. It takes no memory, and waits for nobody.
    pub fn close(self, mut pass: Pass<V>) -> Result<V, (Turn<V>, Pass<V>)>
        requires turn { IsPassOf self pass }
        requires away { IsAway pass }
        ensures base { IfOk result (λ value. V.base value ≡ origin_of V.base self) }
        ensures begins { IfOk result (λ value. BeginsWith (V.items value) (seen_by pass)) }
        ensures own { IfOk result (λ value. of_pass V.number (number_of pass) (V.items value) ≡ own_of pass) }
        ensures turn { IfErr result (λ back. (back.0 ≡ self) × IsPassOf self back.1) }
        ensures same { IfErr result (λ back. IsAsBefore pass back.1 × HasMovedOnce looking pass back.1) }
        ensures other { IfErr result (λ back. 1 < out_in (found_by back.1)) }
    {
        let word = count(&self.table.shared, &mut pass.seat);
        if word % (1 << 32) != 1 {
            return Err((self, pass));
        }
        let Turn { table, callers: _ } = self;
        let Pass { number: _, seat } = pass;
        Ok(value_of(table, seat))
    }

    /// Ends the turn, and answers the value. The passes are as many as the turn has callers, and none has the turn. The
    /// list for which the value stands begins with what each pass has seen, and the entries with the number of a pass
    /// are its own, in their order. Where the passes are those that `make_all` gave, whose numbers are below the number
    /// of callers, each entry has the number of one of them. It takes no memory, never refuses, and waits for nobody.
    pub fn close_all(self, passes: Vec<Pass<V>>) -> V
        requires all { length passes.items ≡ callers_of self }
        requires passes { All (λ p. IsPassOf self p × IsAway p) passes.items }
        ensures base { V.base result ≡ origin_of V.base self }
        ensures bases { All (λ p. base_of p ≡ Some (V.base result)) passes.items }
        ensures begins { All (λ p. BeginsWith (V.items result) (seen_by p)) passes.items }
        ensures numbers { All (λ p. number_of p < callers_of self) passes.items → All (λ e. V.number e < callers_of self) (V.items result) }
        ensures own { All (λ p. of_pass V.number (number_of p) (V.items result) ≡ own_of p) passes.items }
    {
        let Turn { table, callers: _ } = self;
        let seat = collect(&table.shared, passes);
        value_of(table, seat)
    }
}
