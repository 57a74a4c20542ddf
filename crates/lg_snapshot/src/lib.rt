//! The saved state: the one text of what a scheduler knows, in a file that is old or whole.
#![tactic(auto)]

mod decoding;
mod encoding;
mod entries;
mod fault;
#[cfg(test)]
mod file_tests;
mod kinds;
pub mod laws;
mod leaves;
mod loading;
mod order;
mod record_reading;
mod records;
mod saving;
mod task;
mod task_reading;
mod task_validity;
#[cfg(test)]
mod tests;
mod validity;
mod writing;

pub use decoding::decode;
pub use encoding::encode;
pub use fault::{LoadFault, SaveFault};
pub use loading::load;
pub use saving::save;
