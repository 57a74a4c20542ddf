//! The outside in memory, for tests and rehearsals: each object tells all that it did, and fails at the calls that
//! its plan names.
mod calls;
mod clock;
mod door;
mod file_history;
mod file_log;
mod files;
mod link;
mod net;
mod numbers;
mod plan;
mod shelf;
mod sink;
mod source;

pub use calls::CallList;
pub use clock::{ClockEvent, MemoryClock};
pub use door::{Answer, MemoryDoor, Visit};
pub use file_history::{FileEvent, FileHistory};
pub use file_log::FileLog;
pub use files::{Appearance, MemoryFiles};
pub use link::MemoryLink;
pub use net::{BindEvent, MemoryNet};
pub use numbers::MemoryNumbers;
pub use plan::{FaultList, FaultPlan, NoFaults};
pub use shelf::Shelf;
pub use sink::MemorySink;
pub use source::{MemorySource, Turn};

#[cfg(test)]
mod tests;
