//! The words of the statuses.
ghost use Rattle.std.specs.Prelude.{◌≡◌};
ghost use Rattle.lg_calls.specs.Words.{named, status_word, statuses, reported_word, reports};

use crate::status::{Reported, Status};

const STATUSES: [Status; 7] = [
    Status::Pending,
    Status::Running,
    Status::BatchRunning,
    Status::Done,
    Status::Failed,
    Status::Disabled,
    Status::Unknown,
];

const REPORTS: [Reported; 7] = [
    Reported::Pending,
    Reported::Running,
    Reported::Done,
    Reported::Failed,
    Reported::Disabled,
    Reported::Unknown,
    Reported::Suspended,
];

impl Status {
    /// The word of the status, in capitals.
    pub fn word(self) -> &'static str
        ensures { result.now ≡ status_word self }
    {
        match self {
            Status::Pending => "PENDING",
            Status::Running => "RUNNING",
            Status::BatchRunning => "BATCH_RUNNING",
            Status::Done => "DONE",
            Status::Failed => "FAILED",
            Status::Disabled => "DISABLED",
            Status::Unknown => "UNKNOWN",
        }
    }

    /// The status of a word; none where it is the word of no status.
    pub fn named(word: &str) -> Option<Status>
        ensures { result ≡ named status_word statuses word.now }
    {
        STATUSES
            .iter()
            .copied()
            .find(|status| status.word() == word)
    }
}

impl Reported {
    /// The word of the report, in capitals.
    pub fn word(self) -> &'static str
        ensures { result.now ≡ reported_word self }
    {
        match self {
            Reported::Pending => "PENDING",
            Reported::Running => "RUNNING",
            Reported::Done => "DONE",
            Reported::Failed => "FAILED",
            Reported::Disabled => "DISABLED",
            Reported::Unknown => "UNKNOWN",
            Reported::Suspended => "SUSPENDED",
        }
    }

    /// The report of a word; none where it is the word of no report.
    pub fn named(word: &str) -> Option<Reported>
        ensures { result ≡ named reported_word reports word.now }
    {
        REPORTS
            .iter()
            .copied()
            .find(|reported| reported.word() == word)
    }
}
