//! When a task has failed too often: the policy that says how many failures it is allowed, and what is remembered of
//! those that it had. After the retry policy of Luigi 3's scheduler (`retry_count`, `disable_window`,
//! `disable_hard_timeout`).
#![tactic(auto)]

mod failures;
pub mod laws;
mod policy;
#[cfg(test)]
mod tests;

pub use failures::Failures;
pub use policy::Policy;
