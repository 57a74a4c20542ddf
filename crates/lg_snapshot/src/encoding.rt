ghost use Rattle.std.specs.Prelude.{◌≡◌, ◌++◌, IfOk, OnOk};
ghost use Rattle.lg_json.specs.Text.{text_of};
ghost use Rattle.lg_snapshot.specs.Records.{tree_of_state};
ghost use Rattle.lg_snapshot.specs.Snapshot.{IsHeldState, snapshot_text};

use crate::writing::{Output, Written};
use lg_base::{NoMemory, Text};
use lg_calls::State;
use std::alloc::Global;

/// The format's version.
const VERSION: u64 = 1;

/// The one text of a state: compact JSON (RFC 8259) with sorted keys, in which all but printable ASCII is escaped, and one
/// line feed. The settings and the moment of the last pruning aren't written. Refused only where there is no memory.
/// A state that is written is one that memory holds, so that `decode` finds it again.
pub fn encode(alloc: Global, state: &State) -> Result<Text, NoMemory>
    ensures text { IfOk result (λ text. text ≡ snapshot_text state.now) }
    ensures held { IfOk result (λ _. IsHeldState state.now) }
{
    let mut output = Output::new(alloc);
    write_state(state, &mut output)?;
    output.word("\n")?;
    Ok(output.into_text())
}

fn write_state(state: &State, output: &mut Output) -> Result<(), NoMemory>
    ensures written { OnOk result (output.new ≡ output.old ++ text_of (tree_of_state state.now)) }
    ensures held { OnOk result (IsHeldState state.now) }
{
    output.first("batchers", &state.batchers)?;
    output.next("limits", &state.limits)?;
    output.next("moment", &state.moment)?;
    output.next("next", &state.next)?;
    output.next("paused", &state.paused)?;
    output.next("tasks", &state.tasks)?;
    output.next("version", &VERSION)?;
    output.next("workers", &state.workers)?;
    output.end()
}
