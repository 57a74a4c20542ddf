//! HTTP/1.1 messages: from a source's bytes to requests, however the bytes were cut, and from a reply to bytes.
#![tactic(auto)]

mod arriving;
mod framing;
mod heads;
mod incoming;
mod laws;
mod message;
mod reader;
mod reader_end;
mod response;
mod target;
mod window;

pub use laws::{
    bad_stays, bad_wants_no_memory, first_messages, never_both, one_reading, one_status,
    three_statuses,
};
pub use message::{Message, Next};
pub use reader::Reader;
pub use reader_end::ReaderEnd;
pub use response::{respond, respond_error};

#[cfg(test)]
mod tests;
