//! A state saved: its text is written aside, closed, and moved to the path by one rename.
ghost use Rattle.std.specs.Prelude.{◌≡◌, ◌∷◌, [], IsErr, IsErrOf, IfErr, OnOk};
ghost use Rattle.lg_io.specs.Cause.{HasCause};
ghost use Rattle.lg_io.specs.Files.{IsTemporary};
ghost use Rattle.lg_snapshot.specs.FileCalls.{AreMade};
ghost use Rattle.lg_snapshot.specs.Saving.{Leaves, PublishesOrGivesUp, Saves, publishing};
ghost use Rattle.lg_snapshot.specs.Snapshot.{IsHeldState, snapshot_text};
ghost use Rattle.lg_target.specs.Target.{writing};

use crate::encoding::encode;
use crate::fault::SaveFault;
use crate::laws::saves_are_old_or_whole;
use lg_base::{Failed, Text};
use lg_calls::State;
use lg_io::{Files, Numbers};
use lg_target::Aside;
use std::alloc::Global;

/// Saves a state in the file of this path. Its text is encoded first; then a file aside is begun, which draws one number
/// and makes the folder above the path, where the path has a `/` behind its first byte; then the text is written aside,
/// the file is closed, and one rename moves it to the path. So a path without `-luigi-tmp-` in it is old or whole at all
/// times, whatever comes between. `Files` exactly where the files' count of faults rose: the named file is as it was, and
/// where a file aside was begun it was asked to be removed. `NoMemory` before the files were asked anything; one number
/// may have been drawn.
pub fn save<F: Files, G: Numbers>(
    alloc: Global,
    files: &mut F,
    path: &Text,
    numbers: &mut G,
    state: &State,
) -> Result<(), SaveFault>
    ensures asked { Saves path.now (snapshot_text state.now)
        (G.draws numbers.old) (G.draws numbers.new) (F.files files.old) (F.files files.new) result }
    ensures leaves { ¬ IsTemporary path.now
        → Leaves path.now (snapshot_text state.now) (F.files files.old) (F.files files.new) result }
    ensures cause { HasCause (F.faults files.old) (F.faults files.new) (IsErrOf result SaveFault.Files) }
    ensures held { OnOk result (IsHeldState state.now) }
{
    saves_are_old_or_whole();
    let text = encode(alloc, state)?;
    let aside = Aside::begin(alloc, files, numbers, path)?;
    put(files, aside, text.bytes())?;
    Ok(())
}

/// Publishes bytes by a file aside, which is asked to be removed where that fails.
fn put<F: Files>(files: &mut F, aside: Aside, bytes: &[u8]) -> Result<(), Failed>
    ensures asked { PublishesOrGivesUp aside bytes.now (F.files files.old) (F.files files.new) result }
    ensures cause { HasCause (F.faults files.old) (F.faults files.new) (IsErr result) }
{
    match publish(files, aside, bytes) {
        Ok(()) => Ok(()),
        Err((aside, failed)) => {
            let _ = aside.abandon(files);
            Err(failed)
        }
    }
}

/// Writes bytes to a file aside and moves it to its path. The file aside is handed back where that fails.
fn publish<F: Files>(files: &mut F, aside: Aside, bytes: &[u8]) -> Result<(), (Aside, Failed)>
    ensures made { AreMade (publishing aside.path aside.name bytes.now) (F.files files.old) (F.files files.new) result }
    ensures cause { HasCause (F.faults files.old) (F.faults files.new) (IsErr result) }
    ensures back { IfErr result (λ handed. handed.0 ≡ aside) }
{
    match write(files, aside.name(), bytes) {
        Ok(()) => aside.commit(files),
        Err(fault) => Err((aside, fault)),
    }
}

/// Makes a file, writes bytes to it, and closes it.
fn write<F: Files>(files: &mut F, name: &Text, bytes: &[u8]) -> Result<(), Failed>
    ensures made { AreMade (writing name.now (bytes.now ∷ [])) (F.files files.old) (F.files files.new) result }
    ensures cause { HasCause (F.faults files.old) (F.faults files.new) (IsErr result) }
{
    files.create(name)?;
    files.append(name, bytes)?;
    files.close(name)
}
