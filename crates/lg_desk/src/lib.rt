//! The journal of a life: the calls that were entered, in order, and what the one-thread scheduler answers to each; and the
//! desk, at which several callers enter calls into one journal.
#![tactic(auto)]

mod desk;
mod fault;
mod first;
mod journal;
mod keeping;
mod kept;
pub mod laws;
#[cfg(test)]
mod tests;

pub use desk::Desk;
pub use fault::DeskFault;
pub use journal::{CallName, Entry, Journal};
pub use kept::Kept;
