//! The outside, as traits: what a source gave, a sink took, a clock told, a door handed out. Each trait has ghost
//! members that tell what its object holds and did, so that a contract above can speak of whole runs. What an object
//! holds is told optionally, since a real socket cannot tell it; how many of its calls met a fault is always told.
//!
//! Each trait has an implementation in memory, which tells all that it did and fails where a test wants it to, and
//! most have one over the real thing, which tells nothing of what it holds.
#![tactic(auto)]

mod adapters;
mod clock;
mod door;
mod files;
mod link;
mod memory;
mod net;
mod numbers;
mod pair;
mod sink;
mod source;
mod whole;

pub use adapters::{
    DiskFiles, RandomNumbers, ReaderSource, StdioDoor, StdioNet, SystemClock, WriterSink,
};
pub use clock::Clock;
pub use door::{Accept, Door};
pub use files::{FileRead, Files};
pub use link::Link;
pub use memory::{
    Answer, Appearance, BindEvent, CallList, ClockEvent, FaultList, FaultPlan, MemoryClock,
    MemoryDoor, MemoryFiles, MemoryLink, MemoryNet, MemoryNumbers, MemorySink, MemorySource,
    NoFaults, Turn, Visit,
};
pub use net::{BindFault, Net};
pub use numbers::Numbers;
pub use pair::PairLink;
pub use sink::{Sink, WriteStep};
pub use source::{ReadStep, Source};
pub use whole::write_all;
