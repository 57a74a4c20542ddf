//! The points of a range: which days or hours are due, and which of the missing ones come first. After Luigi's
//! `RangeDaily` and `RangeHourly`.
#![tactic(auto)]

mod ask;
mod checking;
mod choice;
mod fault;
pub mod laws;
mod period;
mod range;
#[cfg(test)]
mod tests;

pub use ask::Ask;
pub use checking::check;
pub use choice::required;
pub use fault::AskFault;
pub use period::{Period, parameter_of};
pub use range::points;
