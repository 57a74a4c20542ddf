//! Which task a worker gets that asks for work: the tasks that its search goes over, what is kept for others, and the choice.
#![tactic(auto)]

mod again;
mod choose;
mod fits;
mod rank;
mod ready;
mod reserve;
mod sums;
mod taken;
#[cfg(test)]
mod tests;
mod walk;

pub use again::given_again;
pub use choose::first_candidate;
