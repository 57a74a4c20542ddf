//! How a run of the daemon ends.
ghost use Rattle.std.specs.Prelude.{◌≡◌};

use crate::audit::LifeEnd;
use lg_io::{Sink, write_all};

/// How a run ended.
#[derive(Clone, Copy, Debug, PartialEq, Eq)]
pub enum Exit {
    /// The last life ended by a `stop`, or its door closed.
    Served,
    /// The words are no command line of the daemon.
    BadWords,
    /// The doors could not be bound.
    CannotListen,
    /// The doors failed.
    DoorsFailed,
    /// The last life's journal is full.
    JournalFull,
    /// Memory ran out outside a request.
    NoMemory,
}

impl From<LifeEnd> for Exit {
    ghost use Rattle.luigid.specs.Headline.{exit_of};

    ghost from_gives = { λ end exit. exit ≡ exit_of end };

    fn from(end: LifeEnd) -> Exit {
        match end {
            LifeEnd::Stop | LifeEnd::Closed => Exit::Served,
            LifeEnd::Full => Exit::JournalFull,
            LifeEnd::Doors => Exit::DoorsFailed,
            LifeEnd::Memory => Exit::NoMemory,
        }
    }
}

impl Exit {
    ghost use Rattle.luigid.specs.Headline.{status_of, line_of, Says};

    /// The status of the process.
    pub fn status(self) -> u8
        ensures { result ≡ status_of self }
    {
        match self {
            Exit::Served => 0,
            Exit::BadWords => 2,
            Exit::CannotListen => 4,
            Exit::DoorsFailed => 7,
            Exit::JournalFull => 8,
            Exit::NoMemory => 71,
        }
    }

    /// The line for standard error, with its line feed; empty where there is nothing to say.
    pub fn line(self) -> &'static str
        ensures { result.now ≡ line_of self }
    {
        match self {
            Exit::Served => "",
            Exit::BadWords => "luigid: bad words\n",
            Exit::CannotListen => "luigid: cannot listen\n",
            Exit::DoorsFailed => "luigid: doors failed\n",
            Exit::JournalFull => "luigid: journal full\n",
            Exit::NoMemory => "luigid: no memory\n",
        }
    }

    /// Writes the line, and answers the status.
    pub fn tell<S: Sink>(self, err: &mut S) -> u8
        ensures status { result ≡ status_of self }
        ensures says { Says (S.taken err.old) (S.taken err.new) (S.faults err.old) (S.faults err.new) (line_of self) }
    {
        let _ = write_all(err, self.line().as_bytes());
        self.status()
    }
}
