//! The ids of tasks and of batches, in Luigi's own form, so that a user finds the same ids that Luigi gives.
#![tactic(auto)]

mod batch;
mod digest;
pub mod laws;
mod summary;
mod task;
#[cfg(test)]
mod tests;

pub use batch::batch_id;
pub use task::task_id;
