//! The plain values that everything else speaks of: texts and names, amounts by name, moments, and the two errors
//! that have no cause of their own to tell.
#![tactic(auto)]

mod amounts;
mod faults;
mod moment;
mod names;
mod seq;
mod steps;
mod tally;
mod texts;

pub use amounts::Amounts;
pub use faults::{Failed, NoMemory};
pub use moment::Moment;
pub use names::{Name, TaskId, WorkerId};
pub use seq::Seq;
pub use steps::Steps;
pub use tally::Tally;
pub use texts::{Text, TextFault};
