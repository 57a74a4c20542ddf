//! The settings file of the scheduler: the settings of Luigi 3's section `[scheduler]` and the limits of `[resources]`,
//! in TOML.
#![tactic(auto)]

mod fault;
mod file;
mod keys;
pub mod laws;
mod limits;
mod numbers;
mod scheduler;
mod sections;
#[cfg(test)]
mod tests;

pub use fault::SettingsFault;
pub use file::settings_of;
