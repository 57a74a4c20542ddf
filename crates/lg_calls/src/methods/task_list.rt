//! `task_list`.
ghost use Rattle.std.specs.Prelude.{◌≡◌, IfOk, IsTrue};
ghost use Rattle.lg_calls.specs.Methods.TaskList.{listed_status, status_or_all, task_list, task_list_in_range, unless_zero};
ghost use Rattle.lg_calls.specs.Reading.{Reads};
ghost use Rattle.lg_calls.specs.Ranges.{is_count};

use crate::arguments::Arguments;
use crate::ranges::{count, known};
use crate::refusal::PayloadFault;
use crate::status::Status;
use lg_base::Text;

/// The tasks of a status.
#[derive(Debug, Drop)]
pub struct ListAsk {
    /// The status; all tasks where there is none.
    pub status: Option<Status>,
    /// What a pending task waits for; empty where it doesn't matter.
    pub upstream: Text,
    /// Whether only their number is told where there are too many; true where none is given.
    pub limit: bool,
    /// Words that the task's name has.
    pub search: Option<Text>,
    /// How many are too many, 1 or more, below 2^63; the setting's where there is none.
    pub max_shown_tasks: Option<u64>,
}

impl ListAsk {
    /// Reads `status`, a word that may be empty, `upstream_status`, `limit`, `search`, and `max_shown_tasks`, a whole number,
    /// 0 or more.
    pub(crate) fn read(arguments: &mut Arguments) -> Result<ListAsk, PayloadFault>
        ensures read { Reads task_list arguments.old arguments.new result }
        ensures in_range { IfOk result (λ ask. IsTrue (task_list_in_range ask)) }
    {
        let word = arguments.text("status")?;
        let status = known("status", listed_status(word))?;
        let upstream = arguments.text("upstream_status")?;
        let limit = arguments.truth("limit")?;
        let search = arguments.text("search")?;
        let shown = count(arguments, "max_shown_tasks", 0)?;
        Ok(ListAsk {
            status,
            upstream: upstream.unwrap_or(Text::from_string(String::new(arguments.alloc()))),
            limit: limit.unwrap_or(true),
            search,
            max_shown_tasks: unless_zero(shown),
        })
    }
}

fn listed_status(word: Option<Text>) -> Option<Option<Status>>
    ensures { result ≡ listed_status word }
{
    match word {
        None => Some(None),
        Some(word) => status_or_all(word.as_str()),
    }
}

fn status_or_all(word: &str) -> Option<Option<Status>>
    ensures { result ≡ status_or_all word.now }
{
    if word.is_empty() {
        Some(None)
    } else {
        Status::named(word).map(Some)
    }
}

fn unless_zero(count: Option<u64>) -> Option<u64>
    ensures value { result ≡ unless_zero count }
    ensures in_range { IsTrue (is_count 0 count) → IsTrue (is_count 1 result) }
{
    match count {
        Some(count) if count > 0 => Some(count),
        _ => None,
    }
}
