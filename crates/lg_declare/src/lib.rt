//! The declarations of tasks: families, their parameters and requirements, and the templates of their texts.
#![tactic(auto)]

mod commands;
mod declarations;
mod declare_fault;
mod families;
mod family;
mod fault;
pub mod laws;
mod names;
mod parameters;
mod piece;
mod reader;
mod requirements;
mod template;
mod terms;
#[cfg(test)]
mod tests;
mod values;
mod words;

pub use declarations::Declarations;
pub use declare_fault::DeclareFault;
pub use family::{Batch, Family, Parameter, Requirement, Retries};
pub use fault::TemplateFault;
pub use names::command_names;
pub use template::Template;
