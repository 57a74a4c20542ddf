//! JSON (RFC 8259): the trees of replies and their one compact text, and the fields of a request.
#![tactic(auto)]

mod escapes;
mod fields;
pub mod laws;
mod lists;
mod out;
mod pairs;
mod quoting;
#[cfg(test)]
mod tests;
mod values;

pub use escapes::{emit_parts, parts_length};
pub use fields::{Fields, TakeFault, WrongKind};
pub use out::{Out, emit, length};
pub use pairs::canonical;
pub use quoting::quote;
pub use values::{amount_of, int_of};
