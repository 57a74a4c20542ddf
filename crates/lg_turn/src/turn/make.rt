//! How a turn is made, with its passes.
ghost use Rattle.std.specs.Prelude.{◌≡◌, ◌-◌, ◌<◌, ◌≤◌, [], ◌∷◌, map, All, Some, IfOk, IfErr, vec_capacity};
ghost use Rattle.std.specs.List.{range_with_len};
ghost use Rattle.lg_turn.specs.declared.view.Stage.TheVariants.{Idle};
ghost use Rattle.lg_turn.specs.Views.{blank, view_of};
ghost use Rattle.lg_turn.specs.Steps.{beginning};
ghost use Rattle.lg_turn.specs.Passes.{number_of, IsNew, IsPassOf, callers_of, passes_at_start, origin_of};

use super::{ONE_MORE, SeatOf, SharedOf, TableOf, Turn};
use crate::keeps::Keeps;
use crate::pass::Pass;
use crate::rule::{Deal, Terms};
use atomic_table::{Refused, Table};
use lg_base::NoMemory;
use std::alloc::Global;
use std::snapshot::Snapshot;

impl<V: Keeps> Pass<V> {
    /// The number of the pass, which no other pass of its turn ever has. The first passes have the numbers from 0 on.
    pub fn number(&self) -> u32
        ensures { result ≡ number_of self.now }
    {
        self.number
    }
}

// The one value that a table of no memory gives back.
fn only<V>(mut slots: Vec<Option<V>>) -> V
    requires { (value : V) × (slots.items ≡ Some value ∷ []) }
    ensures { slots.items ≡ Some result ∷ [] }
{
    let Some(last) = slots.pop() else {
        unreachable!()
    };
    let Some(value) = last else { unreachable!() };
    slots.destroy_empty();
    value
}

// A table with the value in its slot, and the seat that answers for all passes.
fn open<V: Keeps>(alloc: Global, value: V, terms: &Terms<V>) -> Result<(TableOf<V>, SeatOf<V>), V>
    requires first { terms.now.first.value ≡ value }
    requires few { (terms.now.passes ≤ terms.now.callers) × (terms.now.callers ≤ 65) }
    requires empty { V.items value ≡ [] }
    ensures sized { IfOk result (λ t. (t.0.shared.table_id.words ≡ 3) × (t.0.shared.table_id.slots ≡ 1) × (t.0.shared.key ≡ terms.now)) }
    ensures seat { IfOk result (λ t. (t.1.table_id ≡ t.0.shared.table_id) × (t.1.me ≡ (beginning terms.now.passes (V.base value), []))) }
    ensures err { IfErr result (λ back. back ≡ value) }
{
    let Ok(mut slots) = Vec::with_capacity(alloc, 1) else {
        return Err(value);
    };
    slots.push_reserved(Some(value));
    let roll = (terms.passes as u64) * ONE_MORE;
    match Table::new(alloc, &[0, 0, roll], slots, terms) {
        Ok(made) => Ok(made),
        Err(Refused { slots }) => Err(only(slots)),
    }
}

// The pass for which a seat answers.
fn pass_at<V: Keeps>(number: u32, seat: SeatOf<V>) -> Pass<V>
    requires { (base : V.Base) × (seat.me ≡ (view_of (blank base number ∷ []) Idle, [])) }
    ensures same { (result.seat ≡ seat) × (result.number ≡ number) }
{
    Pass { number, seat }
}

// Hands out the passes, one after another, each with a seat cut off the first one.
fn deal<V: Keeps>(
    shared: &SharedOf<V>,
    mut seat: SeatOf<V>,
    mut passes: Vec<Pass<V>>,
    callers: u32,
) -> Vec<Pass<V>>
    requires turn { (seat.table_id ≡ shared.now.table_id) × (shared.now.table_id.words ≡ 3) }
    requires first { (callers ≡ shared.now.key.callers) × (seat.me ≡ (beginning callers (V.base shared.now.key.first.value), [])) }
    requires room { (0 < callers) × (passes.items ≡ []) × (callers ≤ vec_capacity passes) }
    ensures numbers { map number_of result.items ≡ range_with_len 0 callers }
    ensures new { All (λ p. (p.seat.table_id ≡ shared.entry.now.table_id) × IsNew (V.base shared.entry.now.key.first.value) p) result.items }
{
    for number in 0..callers - 1 {
        let other = shared.split_seat::<Deal>(&mut seat);
        passes.push_reserved(pass_at(number, other));
    }
    passes.push_reserved(pass_at(callers - 1, seat));
    passes
}

impl<V: Keeps> Turn<V> {
    /// Makes a turn round a value whose list is empty, with one pass, whose number is 0, and room for as many passes as
    /// there are callers: from 1 to 65. The pass has the base of the value, and has seen and made nothing. Where memory
    /// runs out the value comes back.
    pub fn make(alloc: Global, value: V, callers: u32) -> Result<(Turn<V>, Pass<V>), (V, NoMemory)>
        requires callers { (1 ≤ callers) × (callers ≤ 65) }
        requires empty { V.items value ≡ [] }
        ensures callers { IfOk result (λ made. callers_of made.0 ≡ callers) }
        ensures one { IfOk result (λ made. passes_at_start made.0 ≡ 1) }
        ensures base { IfOk result (λ made. origin_of V.base made.0 ≡ V.base value) }
        ensures pass { IfOk result (λ made. IsPassOf made.0 made.1 × (number_of made.1 ≡ 0)) }
        ensures new { IfOk result (λ made. IsNew (V.base value) made.1) }
        ensures err { IfErr result (λ back. back.0 ≡ value) }
    {
        let terms = Terms {
            callers,
            passes: 1,
            first: Snapshot::of(&value),
        };
        match open(alloc, value, &terms) {
            Ok((table, seat)) => {
                let pass = pass_at(0, seat);
                Ok((Turn { table, callers }, pass))
            }
            Err(value) => Err((value, NoMemory)),
        }
    }

    /// Makes a turn round a value whose list is empty, with as many passes as there are callers: from 1 to 65, with
    /// the numbers from 0 on. Each has the base of the value, and has seen and made nothing. Where memory runs out the
    /// value comes back.
    pub fn make_all(
        alloc: Global,
        value: V,
        callers: u32,
    ) -> Result<(Turn<V>, Vec<Pass<V>>), (V, NoMemory)>
        requires callers { (1 ≤ callers) × (callers ≤ 65) }
        requires empty { V.items value ≡ [] }
        ensures callers { IfOk result (λ made. callers_of made.0 ≡ callers) }
        ensures all { IfOk result (λ made. passes_at_start made.0 ≡ callers) }
        ensures base { IfOk result (λ made. origin_of V.base made.0 ≡ V.base value) }
        ensures numbers { IfOk result (λ made. map number_of made.1.items ≡ range_with_len 0 callers) }
        ensures passes { IfOk result (λ made. All (IsPassOf made.0) made.1.items) }
        ensures new { IfOk result (λ made. All (IsNew (V.base value)) made.1.items) }
        ensures err { IfErr result (λ back. back.0 ≡ value) }
    {
        let Ok(passes) = Vec::with_capacity(alloc, callers as usize) else {
            return Err((value, NoMemory));
        };
        let terms = Terms {
            callers,
            passes: callers,
            first: Snapshot::of(&value),
        };
        match open(alloc, value, &terms) {
            Ok((table, seat)) => {
                let passes = deal(&table.shared, seat, passes, callers);
                Ok((Turn { table, callers }, passes))
            }
            Err(value) => Err((value, NoMemory)),
        }
    }
}
