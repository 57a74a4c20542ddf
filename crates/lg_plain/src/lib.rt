//! The scheduler over plain lists: a task is found by a walk along the list, and a change is one walk.
#![tactic(auto)]

mod adding;
mod assign;
mod change;
mod index;
pub mod laws;
mod plain;
mod raising;
pub mod raising_laws;
mod requests;
mod rules;
mod step;
#[cfg(test)]
mod tests;
mod walk;
pub mod work_laws;

pub use plain::Plain;
