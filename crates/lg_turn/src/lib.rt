//! A lock that knows its history. A turn keeps one value, and passes take it and give it back one at a time, in the
//! order in which they asked. The value stands for a list of entries: each pass knows a beginning of the one list, and
//! which entries of it are its own.
#![tactic(auto)]

mod fault;
mod keeps;
pub mod laws;
mod pass;
mod rounds;
mod rule;
#[cfg(test)]
mod tests;
mod turn;
mod view;

pub use fault::TurnFault;
pub use keeps::Keeps;
pub use pass::Pass;
pub use turn::Turn;
