//! How a pass gets the value: it draws a ticket, and waits until that ticket is served.
ghost use Rattle.std.specs.Prelude.{◌≡◌, ◌≢◌, ◌<◌, [], ◌∷◌, length, Some, None};
ghost use Rattle.lg_turn.specs.declared.view.Stage.TheVariants.{Idle};
ghost use Rattle.lg_turn.specs.Views.{BeginsWith, of_pass};
ghost use Rattle.lg_turn.specs.Steps.{HasDrawn, HasTicket, HasTaken};
ghost use Rattle.lg_turn.specs.Passes.{number_of, base_of, seen_by, own_of, moves_by, IsAway, HasTurn, IsPassOf, IsSamePass};

use super::{SERVING, SeatOf, SharedOf, TICKET, Turn};
use crate::keeps::Keeps;
use crate::pass::Pass;
use crate::rule::{Draw, Look};
use std::sync::Wait;

// Draws the next ticket, and answers its lower 64 bits.
fn draw<V: Keeps>(shared: &SharedOf<V>, seat: &mut SeatOf<V>) -> u64
    requires turn { (seat.old.table_id ≡ shared.now.table_id) × (shared.now.table_id.words ≡ 3) }
    requires away { (seat.old.me.0.stage ≡ Idle) × (0 < length seat.old.me.0.accounts) }
    ensures same { (seat.new.table_id ≡ seat.old.table_id) × (seat.new.id ≡ seat.old.id) }
    ensures drawn { HasDrawn seat.old.me result seat.new.me }
{
    shared.fetch_add::<Draw>(seat, TICKET, 1)
}

// Reads which ticket is served. Where it is this one, the value comes out to the seat.
fn look<V: Keeps>(shared: &SharedOf<V>, seat: &mut SeatOf<V>, ticket: u64) -> u64
    requires turn { (seat.old.table_id ≡ shared.now.table_id) × (shared.now.table_id.words ≡ 3) }
    requires waits { HasTicket ticket seat.old.me }
    ensures same { (seat.new.table_id ≡ seat.old.table_id) × (seat.new.id ≡ seat.old.id) }
    ensures other { result ≢ ticket → seat.new.me ≡ seat.old.me }
    ensures served { result ≡ ticket → HasTaken V.items V.number V.base seat.old.me.0.accounts seat.new.me }
{
    shared.load::<Look>(seat, SERVING)
}

// Waits until the ticket is served. Between two looks the thread sleeps until the word changes.
fn wait<V: Keeps, R: Wait>(rt: &R, shared: &SharedOf<V>, seat: &mut SeatOf<V>, ticket: u64)
    requires turn { (seat.old.table_id ≡ shared.now.table_id) × (shared.now.table_id.words ≡ 3) }
    requires waits { HasTicket ticket seat.old.me }
    ensures same { (seat.new.table_id ≡ seat.old.table_id) × (seat.new.id ≡ seat.old.id) }
    ensures served { HasTaken V.items V.number V.base seat.old.me.0.accounts seat.new.me }
{
    for _ in rt.forever() {
        let served = look(shared, seat, ticket);
        if served == ticket {
            return;
        }
        shared.park(rt, SERVING, (served % (1 << 32)) as u32);
    }
    unreachable!()
}

// Moves the value out of the slot.
fn lift_out<V: Keeps>(shared: &SharedOf<V>, seat: &mut SeatOf<V>) -> V
    requires turn { seat.old.table_id ≡ shared.now.table_id }
    requires full { (value : V) × (seat.old.me.1 ≡ (0, Some value) ∷ []) }
    ensures same { (seat.new.table_id ≡ seat.old.table_id) × (seat.new.id ≡ seat.old.id) }
    ensures value { seat.old.me.1 ≡ (0, Some result) ∷ [] }
    ensures emptied { seat.new.me ≡ (seat.old.me.0, (0, None) ∷ []) }
{
    let before = shared.exchange(seat, 0, None);
    let Some(value) = before else { unreachable!() };
    value
}

impl<V: Keeps> Turn<V> {
    /// Waits for the turn, and takes the value. The list for which the value stands begins with what the pass had
    /// seen, and is what it has seen from then on. It has all entries that the pass made, and none else of its number.
    /// It takes no memory. A pass that is dropped while it has the turn takes the value with it: nobody gets the turn
    /// any more.
    pub fn take<R: Wait>(&self, rt: &R, pass: &mut Pass<V>) -> V
        requires turn { IsPassOf self.now pass.old }
        requires away { IsAway pass.old }
        ensures same { IsSamePass pass.old pass.new × (own_of pass.new ≡ own_of pass.old) }
        ensures moves { moves_by pass.new ≡ moves_by pass.old }
        ensures has { HasTurn pass.new }
        ensures base { base_of pass.old ≡ Some (V.base result) }
        ensures begins { BeginsWith (V.items result) (seen_by pass.old) }
        ensures seen { seen_by pass.new ≡ V.items result }
        ensures own { of_pass V.number (number_of pass.new) (V.items result) ≡ own_of pass.new }
    {
        let shared = &self.table.shared;
        let ticket = draw(shared, &mut pass.seat);
        wait(rt, shared, &mut pass.seat, ticket);
        lift_out(shared, &mut pass.seat)
    }
}
