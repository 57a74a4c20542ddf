//! A pass, by which one caller takes the turn.
ghost use Rattle.std.specs.Prelude.{◌≡◌, length, IsTrue};
ghost use Rattle.lg_turn.specs.Views.{number_in, seen_in, own_in, of_pass, is_settled};

use crate::keeps::Keeps;
use crate::view::View;
use atomic_table::Seat;

/// The right of one caller to take the turn. A contract reads of it its number, the base of its turn, the entries that
/// it has seen, those of them that are its own, its moves on the roll of passes, and whether it has the turn. At each
/// moment its own entries are those of its number that it has seen. A pass that is dropped keeps its place among the
/// callers, and no `close` succeeds any more; where it has the turn, nobody gets the turn any more.
#[derive(Drop)]
pub struct Pass<V: Keeps> {
    pub(crate) number: u32,
    pub(crate) seat: Seat<Option<V>, View<V::Item, V::Base>>,
    ghost one: { length seat.me.0.accounts ≡ 1 },
    ghost numbered: { number_in seat.me.0.accounts ≡ number },
    ghost mine: { of_pass V.number number (seen_in seat.me.0.accounts) ≡ own_in seat.me.0.accounts },
    ghost settled: { IsTrue (is_settled seat.me) },
}
