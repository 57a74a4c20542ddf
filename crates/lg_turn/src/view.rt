//! What a pass knows. No value of these types is made: they tell, in proofs alone, what a seat at the table knows.

use std::collections::LinkedList;

/// What a pass knows of the one list: its base, the beginning that it has seen, and the entries that it made itself;
/// and its moves on the roll, the last one first: of each the word that it found, and the word that it left.
pub struct Account<I, B> {
    pub number: u64,
    pub base: B,
    pub seen: LinkedList<I>,
    pub own: LinkedList<I>,
    pub moves: LinkedList<(u64, u64)>,
}

/// Where a pass stands: away from the turn, waiting with a ticket, or with the value out under a ticket. In proofs a
/// ticket counts without bound. Within one call a pass may also enrol another one, for which it has drawn a number and
/// before which so many passes were out; undo a number and a place; or know that it is alone.
pub enum Stage {
    Idle,
    Waits(u64),
    Holds(u64),
    Enrols(u64, u64),
    Undoes,
    Alone,
}

/// The accounts for which a seat answers, one for each pass, and where it stands.
pub struct View<I, B> {
    pub accounts: LinkedList<Account<I, B>>,
    pub stage: Stage,
}
