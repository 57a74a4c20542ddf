//! How a pass is split in two: the roll has room for one more, and a number for it.
ghost use Rattle.std.specs.Prelude.{◌≡◌, ◌+◌, ◌*◌, ◌<◌, ◌≤◌, [], ◌∷◌, length, map, Some, None, IfOk, IfErr};
ghost use Rattle.lg_turn.specs.declared.view.Stage.TheVariants.{Idle, Enrols};
ghost use Rattle.lg_turn.specs.Views.{number_in, view_of, drawn_in, out_in, drawing, releasing};
ghost use Rattle.lg_turn.specs.Rule.{out_count, undone_count};
ghost use Rattle.lg_turn.specs.Steps.{HasEnrolled, HasReleased, newcomer};
ghost use Rattle.lg_turn.specs.Passes.{number_of, found_by, found_before, fault_at, excess_of, IsAway, IsPassOf, IsAsBefore, HasMovedOnce, HasMovedTwice, IsSplitOff, callers_of};

use super::{ONE_MORE, ROLL, SeatOf, SharedOf, Turn};
use crate::fault::TurnFault;
use crate::keeps::Keeps;
use crate::pass::Pass;
use crate::rule::{Enrol, Part, Release};

/// So many numbers of passes are drawn in one turn at most.
const NUMBERS: u64 = 4_294_967_168;

// Enters one pass more, with the next number, in the roll. Answers the roll as it was.
fn enrol<V: Keeps>(shared: &SharedOf<V>, seat: &mut SeatOf<V>) -> u64
    requires turn { (seat.old.table_id ≡ shared.now.table_id) × (shared.now.table_id.words ≡ 3) }
    requires away { (length seat.old.me.0.accounts ≡ 1) × (seat.old.me ≡ (view_of seat.old.me.0.accounts Idle, [])) }
    ensures same { (seat.new.table_id ≡ seat.old.table_id) × (seat.new.id ≡ seat.old.id) }
    ensures enrolled { HasEnrolled V.number seat.old.me result seat.new.me }
{
    shared.fetch_add::<Enrol>(seat, ROLL, ONE_MORE)
}

// Takes out of the roll what a pass has too many in it. Answers the roll as it was.
fn release<V: Keeps>(shared: &SharedOf<V>, seat: &mut SeatOf<V>, excess: u64) -> u64
    requires turn { (seat.old.table_id ≡ shared.now.table_id) × (shared.now.table_id.words ≡ 3) }
    requires pass { length seat.old.me.0.accounts ≡ 1 }
    requires owes { (out_count seat.old.me.0.stage ≡ 1) × (excess ≡ undone_count seat.old.me.0.stage * 4294967296 + 1) × (seat.old.me.1 ≡ []) }
    ensures same { (seat.new.table_id ≡ seat.old.table_id) × (seat.new.id ≡ seat.old.id) }
    ensures released { HasReleased excess seat.old.me result seat.new.me }
{
    shared.fetch_sub::<Release>(seat, ROLL, excess)
}

// Cuts off the pass that was enrolled.
fn part<V: Keeps>(shared: &SharedOf<V>, seat: &mut SeatOf<V>, number: u64, out: u64) -> SeatOf<V>
    requires turn { (seat.old.table_id ≡ shared.now.table_id) × (shared.now.table_id.words ≡ 3) }
    requires enrolled { (0 < length seat.old.me.0.accounts) × (seat.old.me ≡ (view_of seat.old.me.0.accounts (Enrols number out), [])) }
    requires room { out < shared.now.key.callers }
    ensures same { (seat.new.table_id ≡ seat.old.table_id) × (seat.new.id ≡ seat.old.id) }
    ensures away { seat.new.me ≡ (view_of seat.old.me.0.accounts Idle, []) }
    ensures other { (result.table_id ≡ seat.old.table_id) × (result.me ≡ (view_of (newcomer seat.old.me.0.accounts (Enrols number out)) Idle, [])) }
{
    shared.split_seat::<Part>(seat)
}

impl<V: Keeps> Turn<V> {
    /// Makes a second pass of one. The second has the number that the call drew, which no pass had before, has seen what
    /// the first has, and has made nothing; the first stays as it is, but for its moves on the roll. The call draws a
    /// number, and finds in the roll how many were drawn before it, and how many passes are out, where a split that is
    /// under way counts for one more; this comes behind all that the pass had found or left there. It answers `Spent`
    /// exactly where it finds 4,294,967,168 numbers or more, and else `Many` exactly where it finds as many passes as
    /// there are callers, or more. Then the number was drawn in vain, and by a second move, behind the first, the place
    /// is taken out of the roll again; at `Spent` so is the number. It takes no memory, and waits for nobody.
    pub fn split(&self, pass: &mut Pass<V>) -> Result<Pass<V>, TurnFault>
        requires turn { IsPassOf self.now pass.old }
        requires away { IsAway pass.old }
        ensures same { IsAsBefore pass.old pass.new }
        ensures moved { IfOk result (λ _. HasMovedOnce drawing pass.old pass.new) }
        ensures ok { IfOk result (λ _. fault_at (callers_of self.now) (found_by pass.new) ≡ None) }
        ensures refused { IfErr result (λ fault. HasMovedTwice drawing (releasing (excess_of fault)) pass.old pass.new) }
        ensures err { IfErr result (λ fault. fault_at (callers_of self.now) (found_before pass.new) ≡ Some fault) }
        ensures new { IfOk result (λ other. IsPassOf self.now other × IsSplitOff pass.new (drawn_in (found_by pass.new)) other) }
        ensures above { IfOk result (λ other. number_of pass.old < number_of other) }
    {
        let shared = &self.table.shared;
        let word = enrol(shared, &mut pass.seat);
        let number = word / (1 << 32);
        let out = word % (1 << 32);
        if number >= NUMBERS {
            release(shared, &mut pass.seat, ONE_MORE);
            return Err(TurnFault::Spent);
        }
        if out >= self.callers as u64 {
            release(shared, &mut pass.seat, 1);
            return Err(TurnFault::Many);
        }
        let seat = part(shared, &mut pass.seat, number, out);
        Ok(Pass {
            number: number as u32,
            seat,
        })
    }
}
