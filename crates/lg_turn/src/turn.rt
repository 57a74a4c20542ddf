//! The turn.
ghost use Rattle.std.specs.Prelude.{◌≡◌, ◌<◌, ◌≤◌};

mod close;
mod give;
mod join;
mod make;
#[cfg(test)]
mod order;
mod split;
mod take;

use crate::keeps::Keeps;
use crate::rule::{OneList, Terms};
use crate::view::View;
use atomic_table::{Seat, Shared, Table};
use std::alloc::Global;

type SeatOf<V> = Seat<Option<V>, View<<V as Keeps>::Item, <V as Keeps>::Base>>;

type SharedOf<V> = Shared<
    Option<V>,
    View<<V as Keeps>::Item, <V as Keeps>::Base>,
    Terms<V>,
    OneList,
>;

type TableOf<V> = Table<
    Option<V>,
    View<<V as Keeps>::Item, <V as Keeps>::Base>,
    Terms<V>,
    OneList,
    Global,
>;

/// The word that counts the tickets that were drawn.
const TICKET: usize = 0;

/// The word that has the ticket which is served.
const SERVING: usize = 1;

/// The word that counts the numbers of passes that were drawn, in its upper 32 bits, and the passes that are out, in its
/// lower 32 bits.
const ROLL: usize = 2;

/// One number and one pass more in the roll.
const ONE_MORE: u64 = (1 << 32) + 1;

/// A lock round one value, which passes take in the order in which they drew their tickets.
#[derive(Drop)]
pub struct Turn<V: Keeps> {
    table: TableOf<V>,
    callers: u32,
    ghost sized: { (table.shared.table_id.words ≡ 3) × (table.shared.table_id.slots ≡ 1) },
    ghost told: { callers ≡ table.shared.key.callers },
    ghost few: { (0 < table.shared.key.callers) × (table.shared.key.callers ≤ 65) },
}
