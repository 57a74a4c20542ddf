//! The desk: a scheduler that several callers share.

mod call;
mod close;
mod join;
mod make;
mod split;

use crate::kept::Kept;
use lg_calls::Engine;
use lg_turn::Turn;

/// The scheduler of one thread under a turn. Each caller has a pass, and enters calls by it; the calls of all make one
/// journal, and each is answered as the scheduler of one thread answers it there. The base is the state of the engine
/// with which the desk was made.
#[derive(Drop)]
pub struct Desk<E: Engine> {
    turn: Turn<Kept<E>>,
}
