//! The listings: what the scheduler shows of a state.
#![tactic(auto)]

mod builders;
mod consumers;
mod counts;
mod errors;
pub mod laws;
mod leaves;
mod names;
mod pending;
pub mod picking;
mod records;
mod runs;
mod search;
pub mod statuses;
mod task;
pub mod tasks;
#[cfg(test)]
mod tests;
mod upstream;
mod usage;
mod walk;
mod wishes;
mod work;
mod workers;

pub use consumers::resource_list;
pub use counts::status_counts;
pub use errors::fetch_error;
pub use names::display_name;
pub use pending::count_pending;
pub use search::task_search;
pub use task::task_record;
pub use upstream::upstream_status;
pub use usage::resources;
pub use work::{nothing_to_do, work_reply};
