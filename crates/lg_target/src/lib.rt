//! Files that are old or whole: a file is written aside and moved to its path by one rename, so that nobody sees half of
//! it. After Luigi's `LocalTarget`.
#![tactic(auto)]

mod aside;
mod fault;
mod folder;
pub mod laws;
mod looking;

pub use aside::Aside;
pub use fault::AsideFault;
pub use looking::exists;

#[cfg(test)]
mod tests;
