//! What the definitions come to.
ghost use Rattle.std.specs.Prelude.{◌≡◌, ◌++◌, List, ℕ, None, Some, IsSome, Ok, Err, IfOk};
ghost use Rattle.lg_calls.specs.Valid.{IsValidState};
ghost use Rattle.lg_calls.specs.declared.settings.Settings.{Settings};
ghost use Rattle.lg_calls.specs.declared.state.State as state;
ghost use Rattle.lg_io.specs.Files.{AnsweredCall, FilesTold, IsTemporary};
ghost use Rattle.lg_snapshot.specs.declared.fault.SaveFault as fault;
ghost use Rattle.lg_snapshot.specs.Saving.{AsksFor};
ghost use Rattle.lg_snapshot.specs.Snapshot.{IsHeldState, IsSnapshotOf};
ghost use Rattle.lg_target.specs.Target.{AreCalled, IsOld, IsReplaced, StayAside, maps_between};

use crate::{LoadFault, SaveFault, decode, encode, load, save};
use lg_base::{NoMemory, Text};
use lg_calls::State;
use lg_io::{Files, Numbers};
use lg_target::laws::{aside_leaves_the_old, whole_is_what_was_written};
use std::alloc::Global;

/// Bytes are the snapshot of one state at most: two states with the same settings and one text are one.
pub fn one_text_one_state()
    ensures { (settings : Settings) (s t : state.State) (bytes : List ℕ) → IsHeldState s → IsHeldState t
        → IsSnapshotOf settings s bytes → IsSnapshotOf settings t bytes → s ≡ t }
{}

/// The state that a state's text is read as, with its settings: a valid state with no moment of the last pruning is
/// found again as it was.
pub fn written_is_read(alloc: Global, state: &State) -> Result<Option<State>, NoMemory>
    ensures { IsValidState state.now → state.now.pruned ≡ None → IfOk result (λ found. found ≡ Some state.now) }
{
    let text = encode(alloc, state)?;
    decode(alloc, text.bytes(), &state.settings)
}

/// From the beginning of a save on, and until that of the next, a path without the mark of a file aside is old or whole in
/// every map that the files held: where the save is made the path holds its first bytes, or is absent as at first, up to
/// one rename, and from there the whole bytes that were saved; where it is refused the path stays as it was. What comes
/// later is anything that stays aside.
pub fn saves_are_old_or_whole()
    ensures whole { (path bytes numbers : List ℕ) (calls later : List AnsweredCall) (before after : FilesTold)
        → ¬ IsTemporary path → AsksFor path bytes numbers calls (Ok tt) → StayAside later
        → AreCalled before (calls ++ later) after → IsReplaced path bytes (maps_between before after) }
    ensures old { (path bytes numbers : List ℕ) (cause : fault.SaveFault) (calls later : List AnsweredCall) (before after : FilesTold)
        → ¬ IsTemporary path → AsksFor path bytes numbers calls (Err cause) → StayAside later
        → AreCalled before (calls ++ later) after → IsOld path (maps_between before after) }
{
    aside_leaves_the_old();
    whole_is_what_was_written();
}

/// What is loaded of a state that was saved, with its settings: a valid state with no moment of the last pruning is found
/// again as it was, where the files tell and the path has no mark of a file aside.
pub fn saved_is_loaded<F: Files, G: Numbers>(
    alloc: Global,
    files: &mut F,
    path: &Text,
    numbers: &mut G,
    state: &State,
) -> Result<Result<Option<State>, LoadFault>, SaveFault>
    ensures { IsSome (F.files files.old) → ¬ IsTemporary path.now → IsValidState state.now → state.now.pruned ≡ None
        → IfOk result (λ loaded. IfOk loaded (λ found. found ≡ Some state.now)) }
{
    save(alloc, files, path, numbers, state)?;
    Ok(load(alloc, files, path, &state.settings))
}
