ghost use Rattle.std.specs.Prelude.{◌≡◌, ◌≢◌, Some};
ghost use Rattle.lg_http.specs.Answers.{ending_of};

use crate::Next;

/// Why a reader gives no more messages.
#[derive(Clone, Copy, Debug, PartialEq, Eq)]
pub enum ReaderEnd {
    /// The last message closes the connection.
    Closed,
    /// The input ended between two messages.
    Ended,
    /// What stands in a message's place is none. The number is the status to answer with.
    Bad(u16),
    /// The input ended inside a message.
    Torn,
    /// The source was quiet 600 times in a row.
    Idle,
    /// A read failed.
    Failed,
    /// There is no memory for the message whose head is whole.
    NoMemory,
}

impl ReaderEnd {
    /// The answer of a reader that is over for another reason than its last message.
    pub(crate) fn answer(self) -> Next
        requires { self ≢ ReaderEnd.Closed }
        ensures { ending_of result ≡ Some self }
    {
        match self {
            ReaderEnd::Closed => unreachable!(),
            ReaderEnd::Ended => Next::End,
            ReaderEnd::Bad(status) => Next::Bad(status),
            ReaderEnd::Torn => Next::Torn,
            ReaderEnd::Idle => Next::Idle,
            ReaderEnd::Failed => Next::Failed,
            ReaderEnd::NoMemory => Next::NoMemory,
        }
    }
}
