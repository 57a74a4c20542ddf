//! The outside over real things, a few lines each. They carry over what their reader or writer tells, and tell nothing
//! else of what they hold. A fault is counted just where a call answers that it failed; that they do what their names say is
//! trusted.
mod clock;
mod files;
mod numbers;
mod reader;
mod stdio;
mod writer;

pub use clock::SystemClock;
pub use files::DiskFiles;
pub use numbers::RandomNumbers;
pub use reader::ReaderSource;
pub use stdio::{StdioDoor, StdioNet};
pub use writer::WriterSink;

#[cfg(test)]
mod tests;
