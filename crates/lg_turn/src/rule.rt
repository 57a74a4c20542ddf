//! The rule of the table under a turn, and its steps.
ghost use Rattle.lg_turn.specs.Rule.{IsKept};
ghost use Rattle.lg_turn.specs.Steps.{beginning, Draws, Looks, Advances, Enrolls, Releases, Absorbs, Counts, cut_off, left_over, kept, enrolled, put_together, spent};

use crate::keeps::Keeps;
use crate::view::View;
use atomic_table::{Join, Play, Split, TableRule};
use std::snapshot::Snapshot;

/// What the table is told once: how many passes there may be, how many there are first, and the value that the list
/// begins with.
#[derive(Drop)]
pub struct Terms<V> {
    pub callers: u32,
    pub passes: u32,
    pub first: Snapshot<V>,
}

/// The rule: there is one list, and what each pass knows of it is true.
pub struct OneList;

impl<V: Keeps> TableRule<Option<V>, View<V::Item, V::Base>, Terms<V>> for OneList {
    ghost holds = { λ terms. IsKept V.items V.number V.base terms.callers (V.base terms.first.value) };

    ghost first = { λ terms. beginning terms.passes (V.base terms.first.value) };
}

pub struct Draw;

impl<V: Keeps> Play<Option<V>, View<V::Item, V::Base>> for Draw {
    ghost then = { Draws };
}

pub struct Look;

impl<V: Keeps> Play<Option<V>, View<V::Item, V::Base>> for Look {
    ghost then = { Looks V.items V.number V.base };
}

pub struct Advance;

impl<V: Keeps> Play<Option<V>, View<V::Item, V::Base>> for Advance {
    ghost then = { Advances V.items V.number V.base };
}

pub struct Enrol;

impl<V: Keeps> Play<Option<V>, View<V::Item, V::Base>> for Enrol {
    ghost then = { Enrolls V.number };
}

pub struct Release;

impl<V: Keeps> Play<Option<V>, View<V::Item, V::Base>> for Release {
    ghost then = { Releases };
}

pub struct Absorb;

impl<V: Keeps> Play<Option<V>, View<V::Item, V::Base>> for Absorb {
    ghost then = { Absorbs V.number };
}

pub struct Count;

impl<V: Keeps> Play<Option<V>, View<V::Item, V::Base>> for Count {
    ghost then = { Counts };
}

/// Cuts one pass off the first seat.
pub struct Deal;

impl<I, B> Split<View<I, B>> for Deal {
    ghost left = { left_over };

    ghost right = { cut_off };
}

/// Puts all passes together again.
pub struct Collect;

impl<I, B> Join<View<I, B>> for Collect {
    ghost both = { put_together };

    ghost spent = { spent };
}

/// Makes a second pass of one that has enrolled it.
pub struct Part;

impl<I, B> Split<View<I, B>> for Part {
    ghost left = { kept };

    ghost right = { enrolled };
}
