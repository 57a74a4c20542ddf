//! A state, read from its text.
ghost use Rattle.std.specs.Prelude.{◌≡◌, IfOk, IfSome, Some, None};
ghost use Rattle.std.specs.Str.{bytes_eq};
ghost use Rattle.lg_snapshot.specs.Parsing.{Parses, Says, Checks};
ghost use Rattle.lg_snapshot.specs.Reading.{Reads};
ghost use Rattle.lg_snapshot.specs.Snapshot.{IsHeldState, IsSnapshotOf, snapshot_text};
ghost use Rattle.lg_snapshot.specs.StateReading as spec;
ghost use Rattle.lg_calls.specs.declared.state.State as state;

use crate::encoding::encode;
use crate::entries::{Entries, Unread};
use crate::validity::is_valid;
use lg_base::NoMemory;
use lg_calls::{Settings, State};
use lg_json::laws::quotes_are_printable;
use serde_json::Value;
use std::alloc::Global;

/// The state of which these bytes are the text, with these settings and no moment of the last pruning; none where there is
/// no such state. What the bytes say is read leniently, written again, and compared: so the bytes are the state's text to
/// the last. Refused only where there is no memory.
pub fn decode(alloc: Global, bytes: &[u8], settings: &Settings) -> Result<Option<State>, NoMemory>
    ensures found { IfOk result (λ found. IfSome found (λ s. IsSnapshotOf settings.now s bytes.now)) }
    ensures only { IfOk result (λ found. (s : state.State) → IsHeldState s → IsSnapshotOf settings.now s bytes.now → found ≡ Some s) }
{
    quotes_are_printable();
    match read_state(alloc, bytes, settings) {
        Ok(state) => checked(alloc, bytes, state),
        Err(Unread::Other) => Ok(None),
        Err(Unread::NoMemory) => Err(NoMemory),
    }
}

// What the bytes say, where they say anything.
fn read_state(alloc: Global, bytes: &[u8], settings: &Settings) -> Result<State, Unread>
    ensures says { Says settings.now bytes.now result }
    ensures set { IfOk result (λ s. (s.settings ≡ settings.now) × (s.pruned ≡ None)) }
{
    let value = parsed(alloc, bytes)?;
    let mut entries = Entries::of(alloc, value)?;
    read_fields(&mut entries, settings)
}

// The value that the bytes are, as JSON.
fn parsed(alloc: Global, bytes: &[u8]) -> Result<Value, Unread>
    ensures { Parses bytes.now result }
{
    match Value::from_slice(alloc, bytes) {
        Ok(value) => Ok(value),
        Err(error) if error.is_memory() => Err(Unread::NoMemory),
        Err(_) => Err(Unread::Other),
    }
}

// The state's fields, in the order of their names. Whether the version is the one that is written shows when the texts
// are compared.
fn read_fields(entries: &mut Entries, settings: &Settings) -> Result<State, Unread>
    ensures read { Reads (spec.state settings.now) entries.old entries.new result }
    ensures set { IfOk result (λ s. (s.settings ≡ settings.now) × (s.pruned ≡ None)) }
{
    let batchers = entries.next("batchers")?;
    let limits = entries.next("limits")?;
    let moment = entries.next("moment")?;
    let next = entries.next("next")?;
    let paused = entries.next("paused")?;
    let tasks = entries.next("tasks")?;
    let _version: u64 = entries.next("version")?;
    let workers = entries.next("workers")?;
    let settings = settings.copy()?;
    Ok(State {
        tasks,
        workers,
        batchers,
        limits,
        paused,
        moment,
        pruned: None,
        next,
        settings,
    })
}

// The state, where it is valid and has these bytes as its text.
fn checked(alloc: Global, bytes: &[u8], state: State) -> Result<Option<State>, NoMemory>
    ensures { IfOk result (Checks state bytes.now) }
{
    if is_valid(alloc, &state)? && is_text_of(alloc, &state, bytes)? {
        Ok(Some(state))
    } else {
        Ok(None)
    }
}

fn is_text_of(alloc: Global, state: &State, bytes: &[u8]) -> Result<bool, NoMemory>
    ensures { IfOk result (λ same. same ≡ bytes_eq (snapshot_text state.now) bytes.now) }
{
    let text = encode(alloc, state)?;
    Ok(text.bytes() == bytes)
}
