//! `add_task`, one step behind another, on a copy of the state.
mod changes;
mod describing;
mod ending;
pub(crate) mod making;
mod offering;
pub(crate) mod places;
mod reporting;
mod steps;
pub(crate) mod touching;
mod urging;
mod walk;
mod wanting;

pub use steps::add_task;
