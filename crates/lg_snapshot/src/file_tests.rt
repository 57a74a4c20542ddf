//! States saved in files and loaded from them, where each call of the files fails in turn.
use crate::laws::saved_is_loaded;
use crate::tests::{EMPTY, FULL, full_state};
use crate::{LoadFault, SaveFault, load, save};
use lg_base::Text;
use lg_calls::{Settings, State};
use lg_io::{FaultList, Files, MemoryFiles, MemoryNumbers};
use std::alloc::Global;
use std::test::Fail;

const PATH: &str = "out/s";

/// The file aside of `out/s` by the number 12345678901.
const ASIDE: &str = "out/s-luigi-tmp-2345678901";

/// Files in memory of which the calls with these numbers fail.
fn failing(alloc: Global, calls: &[u64]) -> Result<MemoryFiles<FaultList>, Fail> {
    let plan = FaultList::new(calls.to_vec(alloc)?);
    Ok(MemoryFiles::new(alloc, Vec::new(alloc), plan))
}

fn number(alloc: Global) -> Result<MemoryNumbers, Fail> {
    Ok(MemoryNumbers::new([12_345_678_901].to_vec(alloc)?))
}

/// Makes a file of these bytes, by three calls.
fn write<F: Files>(files: &mut F, path: &Text, bytes: &[u8]) -> bool {
    files.create(path).is_ok() && files.append(path, bytes).is_ok() && files.close(path).is_ok()
}

#[test]
fn a_state_is_saved_over_an_old_file(rt: HostRuntime) -> Result<(), Fail> {
    let mut files = failing(rt.alloc(), &[])?;
    let path = Text::copied(rt.alloc(), PATH)?;
    let aside = Text::copied(rt.alloc(), ASIDE)?;
    let state = full_state(rt.alloc())?;
    assert!(rt; write(&mut files, &path, b"old"));
    let mut numbers = number(rt.alloc())?;
    let saved = save(rt.alloc(), &mut files, &path, &mut numbers, &state);
    assert_eq!(rt; saved, Ok(()));
    assert_eq!(rt; files.bytes(&path), Some(FULL.as_bytes()));
    assert!(rt; files.bytes(&aside).is_none());
    Ok(())
}

/// Whether a file has these bytes, or is absent where there are none.
fn is_left(files: &MemoryFiles<FaultList>, path: &Text, bytes: Option<&[u8]>) -> bool {
    files.bytes(path) == bytes
}

/// Whether a save of the empty state over an old file is refused where the calls with these numbers fail, so that the file
/// stays old, and the file aside is left with these bytes, or not at all.
fn is_refused(alloc: Global, calls: &[u64], left: Option<&[u8]>) -> Result<bool, Fail> {
    let path = Text::copied(alloc, PATH)?;
    let mut files = failing(alloc, calls)?;
    if !write(&mut files, &path, b"old") {
        return Err("the file is not written".into());
    }
    let mut numbers = number(alloc)?;
    let state = State::empty(alloc, Settings::new());
    let saved = save(alloc, &mut files, &path, &mut numbers, &state);
    let is_old = is_left(&files, &path, Some(b"old"));
    let aside = Text::copied(alloc, ASIDE)?;
    Ok(saved == Err(SaveFault::Files) && is_old && is_left(&files, &aside, left))
}

// Three calls make the old file; then come the folder (3), the file aside made (4), written (5), closed (6) and moved (7),
// and its removal behind the call that failed.
#[test]
fn each_call_of_a_save_fails_in_turn(rt: HostRuntime) -> Result<(), Fail> {
    let text = Some(EMPTY.as_bytes());
    assert!(rt; is_refused(rt.alloc(), &[3], None)?);
    assert!(rt; is_refused(rt.alloc(), &[4], None)?);
    assert!(rt; is_refused(rt.alloc(), &[4, 5], None)?);
    assert!(rt; is_refused(rt.alloc(), &[5], None)?);
    assert!(rt; is_refused(rt.alloc(), &[5, 6], Some(b""))?);
    assert!(rt; is_refused(rt.alloc(), &[6], None)?);
    assert!(rt; is_refused(rt.alloc(), &[6, 7], text)?);
    assert!(rt; is_refused(rt.alloc(), &[7], None)?);
    assert!(rt; is_refused(rt.alloc(), &[7, 8], text)?);
    Ok(())
}

// A path without a folder makes none: its first call is the creation of the file aside, its fourth the rename.
#[test]
fn without_a_folder_the_fourth_call_renames(rt: HostRuntime) -> Result<(), Fail> {
    let path = Text::copied(rt.alloc(), "s")?;
    let state = State::empty(rt.alloc(), Settings::new());
    for (call, wanted) in [
        (0, Err(SaveFault::Files)),
        (3, Err(SaveFault::Files)),
        (4, Ok(())),
    ] {
        let mut files = failing(rt.alloc(), &[call])?;
        let mut numbers = number(rt.alloc())?;
        let saved = save(rt.alloc(), &mut files, &path, &mut numbers, &state);
        assert_eq!(rt; saved, wanted, "at {call}");
        assert_eq!(rt; files.bytes(&path).is_some(), wanted.is_ok(), "at {call}");
    }
    Ok(())
}

/// Whether a state is loaded of a file with these bytes.
fn is_loaded(alloc: Global, bytes: &[u8]) -> Result<bool, Fail> {
    let mut files = failing(alloc, &[])?;
    let path = Text::copied(alloc, PATH)?;
    if !write(&mut files, &path, bytes) {
        return Err("the file is not written".into());
    }
    Ok(load(alloc, &mut files, &path, &Settings::new())?.is_some())
}

#[test]
fn none_is_loaded_of_an_absent_empty_or_changed_file(rt: HostRuntime) -> Result<(), Fail> {
    let mut files = failing(rt.alloc(), &[])?;
    let path = Text::copied(rt.alloc(), PATH)?;
    let found = load(rt.alloc(), &mut files, &path, &Settings::new())?;
    assert!(rt; found.is_none());
    assert!(rt; !is_loaded(rt.alloc(), b"")?);
    assert!(rt; is_loaded(rt.alloc(), EMPTY.as_bytes())?);
    for at in 0..EMPTY.len() {
        let mut bytes = EMPTY.as_bytes().to_vec(rt.alloc())?;
        bytes[at] = if bytes[at] == b'x' { b'y' } else { b'x' };
        assert!(rt; !is_loaded(rt.alloc(), &bytes)?, "at {at}");
    }
    Ok(())
}

#[test]
fn a_fault_of_reading_is_told(rt: HostRuntime) -> Result<(), Fail> {
    let path = Text::copied(rt.alloc(), PATH)?;
    for is_there in [false, true] {
        let call = if is_there { 3 } else { 0 };
        let mut files = failing(rt.alloc(), &[call])?;
        let is_written = is_there && write(&mut files, &path, EMPTY.as_bytes());
        assert_eq!(rt; is_written, is_there);
        let found = load(rt.alloc(), &mut files, &path, &Settings::new());
        assert!(rt; matches!(found, Err(LoadFault::Files)));
    }
    Ok(())
}

#[test]
fn a_saved_state_is_loaded_equal(rt: HostRuntime) -> Result<(), Fail> {
    let mut files = failing(rt.alloc(), &[])?;
    let path = Text::copied(rt.alloc(), PATH)?;
    let state = full_state(rt.alloc())?;
    let mut numbers = number(rt.alloc())?;
    let loaded = saved_is_loaded(rt.alloc(), &mut files, &path, &mut numbers, &state)?;
    let again = loaded?.expect(&rt, "the state");
    let shown = format!(in rt.alloc(); "{state:?}")?;
    assert_eq!(rt;
        format!(in rt.alloc(); "{again:?}")?.as_str(),
        shown.as_str()
    );
    Ok(())
}
