ghost use Rattle.std.specs.Prelude.{◌≡◌};
ghost use Rattle.lg_http.specs.Answers.{ending_of};

use crate::ReaderEnd;
use lg_base::Text;

/// A message, once it is whole.
#[derive(Drop)]
pub struct Message {
    /// The method, as `POST`.
    pub verb: Text,
    /// The request target, not decoded.
    pub target: Text,
    /// The body, as it was sent: at most 1,048,576 bytes.
    pub body: Vec<u8>,
    /// Whether a field of the head tells the body's length.
    pub sized: bool,
    /// Whether the connection ends with this message: it is of HTTP/1.0, asks for that, or is a POST without a length.
    pub last: bool,
}

/// The answer of a reader.
#[derive(Drop)]
pub enum Next {
    /// The next message.
    Message(Message),
    /// The input ended between two messages.
    End,
    /// What stands in a message's place is none. The number is the status to answer with: 400, 413 or 431.
    Bad(u16),
    /// The input ended inside a message.
    Torn,
    /// The source has no bytes now. Call again.
    Quiet,
    /// The source had no bytes 600 times in a row.
    Idle,
    /// A read failed.
    Failed,
    /// There is no memory for the message whose head is whole.
    NoMemory,
}

impl Next {
    /// Why this answer is the last, if it is.
    pub(crate) fn end(&self) -> Option<ReaderEnd>
        ensures { result ≡ ending_of self.now }
    {
        match self {
            Next::Message(message) => message.last.then_some(ReaderEnd::Closed),
            Next::Quiet => None,
            Next::End => Some(ReaderEnd::Ended),
            Next::Bad(status) => Some(ReaderEnd::Bad(*status)),
            Next::Torn => Some(ReaderEnd::Torn),
            Next::Idle => Some(ReaderEnd::Idle),
            Next::Failed => Some(ReaderEnd::Failed),
            Next::NoMemory => Some(ReaderEnd::NoMemory),
        }
    }
}
