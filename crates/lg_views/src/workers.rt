//! The workers of a state, and what is shown of them.
ghost use Rattle.std.specs.Prelude.{◌≡◌};
ghost use Rattle.std.specs.Option.{option_copied};
ghost use Rattle.lg_calls.specs.Views.Workers as spec;
ghost use Rattle.lg_calls.specs.Workers.{find_worker, is_disabled};

use crate::builders::Shown;
use lg_base::{NoMemory, WorkerId};
use lg_calls::{Info, WorkerRec};
use lg_json::Out;
use std::alloc::Global;

/// The worker of an id, if it is known. It takes no memory.
pub(crate) fn find_worker<'a>(workers: &'a [WorkerRec], id: &WorkerId) -> Option<&'a WorkerRec>
    ensures { option_copied result ≡ find_worker id.now workers.now }
{
    workers.iter().find(|worker| id.cmp(&worker.id).is_eq())
}

/// Whether the worker of an id gets no more work. It takes no memory.
pub(crate) fn is_disabled(workers: &[WorkerRec], id: &WorkerId) -> bool
    ensures { result ≡ is_disabled id.now workers.now }
{
    match find_worker(workers, id) {
        Some(worker) => worker.disabled,
        None => false,
    }
}

/// The word for whether a worker gets work.
pub(crate) fn state_word(disabled: bool) -> &'static str
    ensures { result.now ≡ spec.state_word disabled }
{
    if disabled { "disabled" } else { "active" }
}

impl Shown for Info {
    ghost tree = { spec.info_shown };

    fn show(&self, alloc: Global) -> Result<Out, NoMemory> {
        match self {
            Info::Text(text) => text.show(alloc),
            Info::Number(number) => Ok(Out::Int(*number)),
            Info::Truth(holds) => Ok(Out::Truth(*holds)),
            Info::Null => Ok(Out::Null),
        }
    }
}
