//! The kinds of a task's parameters: what a text says as a value of a kind, and the one text that a value has.
#![tactic(auto)]

mod date_texts;
mod dates;
mod fault;
mod kinds;
pub mod laws;
mod lists;
mod params;
mod places;
mod reading;
#[cfg(test)]
mod tests;
mod text_list;
mod writing;

pub use fault::ReadFault;
pub use kinds::Kind;
pub use params::Param;
pub use reading::read;
pub use text_list::TextList;
pub use writing::write;
