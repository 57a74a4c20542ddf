//! What a desk keeps under its turn, as the turn sees it.
ghost use Rattle.lg_desk.specs.Desk.{base_in, journal_in};

use crate::journal::Entry;
use crate::kept::Kept;
use lg_calls::{Engine, State};
use lg_turn::Keeps;

impl<E: Engine> Keeps for Kept<E> {
    type Item = Entry;

    type Base = State;

    ghost items = { journal_in };

    ghost number = { λ entry. entry.pass };

    ghost base = { base_in };
}
