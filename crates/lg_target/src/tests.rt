use super::*;
use lg_base::Text;
use lg_io::{Appearance, FaultList, Files, MemoryFiles, MemoryNumbers, Numbers};
use std::alloc::Global;
use std::test::Fail;

const PATH: &str = "out/a";

const NAME: &str = "out/a-luigi-tmp-2345678901";

/// How far a file came before a call failed.
#[derive(Clone, Copy, Debug, PartialEq, Eq)]
enum Stage {
    Begin,
    Write,
    Commit,
    Whole,
}

/// Files of which the calls with these numbers fail.
fn failing(alloc: Global, calls: &[u64]) -> Result<MemoryFiles<FaultList>, Fail> {
    let plan = FaultList::new(calls.to_vec(alloc)?);
    Ok(MemoryFiles::new(alloc, Vec::new(alloc), plan))
}

/// The number of which the file aside of `out/a` has its name.
fn number(alloc: Global) -> Result<MemoryNumbers, Fail> {
    Ok(MemoryNumbers::new([12_345_678_901].to_vec(alloc)?))
}

/// Makes a file that has the byte `x`.
fn write<F: Files>(files: &mut F, name: &Text) -> bool {
    files.create(name).is_ok() && files.append(name, b"x").is_ok() && files.close(name).is_ok()
}

/// Writes `x` aside for a path and commits it, or abandons it where that fails.
fn publish<F: Files, G: Numbers>(
    alloc: Global,
    files: &mut F,
    numbers: &mut G,
    path: &Text,
) -> Stage {
    let Ok(aside) = Aside::begin(alloc, files, numbers, path) else {
        return Stage::Begin;
    };
    if !write(files, aside.name()) {
        return Stage::Write;
    }
    match aside.commit(files) {
        Ok(()) => Stage::Whole,
        Err((aside, _)) => {
            let _ = aside.abandon(files);
            Stage::Commit
        }
    }
}

#[test]
fn a_file_is_there_once_it_is_committed(rt: HostRuntime) -> Result<(), Fail> {
    let mut files = failing(rt.alloc(), &[])?;
    let path = Text::copied(rt.alloc(), PATH)?;
    let mut numbers = number(rt.alloc())?;
    let aside = Aside::begin(rt.alloc(), &mut files, &mut numbers, &path)?;
    assert_eq!(rt; aside.name().as_str(), NAME);
    assert!(rt; write(&mut files, aside.name()));
    assert_eq!(rt; exists(&mut files, &path), Ok(false));
    assert!(rt; aside.commit(&mut files).is_ok());
    assert_eq!(rt; exists(&mut files, &path), Ok(true));
    assert_eq!(rt; files.bytes(&path), Some(b"x".as_slice()));
    Ok(())
}

#[test]
fn a_file_that_appears_aside_is_committed(rt: HostRuntime) -> Result<(), Fail> {
    let made = Appearance {
        call: 1,
        front: Text::copied(rt.alloc(), PATH)?,
        back: Text::copied(rt.alloc(), "2345678901")?,
        bytes: b"made".to_vec(rt.alloc())?,
    };
    let none = FaultList::new(Vec::new(rt.alloc()));
    let mut files = MemoryFiles::new(rt.alloc(), vec![in rt.alloc(); made]?, none);
    let path = Text::copied(rt.alloc(), PATH)?;
    let mut numbers = number(rt.alloc())?;
    let aside = Aside::begin(rt.alloc(), &mut files, &mut numbers, &path)?;
    assert_eq!(rt; exists(&mut files, &path), Ok(false));
    assert!(rt; aside.commit(&mut files).is_ok());
    assert_eq!(rt; files.bytes(&path), Some(b"made".as_slice()));
    Ok(())
}

#[test]
fn an_abandoned_file_leaves_neither(rt: HostRuntime) -> Result<(), Fail> {
    let mut files = failing(rt.alloc(), &[])?;
    let path = Text::copied(rt.alloc(), PATH)?;
    let name = Text::copied(rt.alloc(), NAME)?;
    let mut numbers = number(rt.alloc())?;
    let aside = Aside::begin(rt.alloc(), &mut files, &mut numbers, &path)?;
    assert!(rt; write(&mut files, aside.name()));
    assert!(rt; aside.abandon(&mut files).is_ok());
    assert!(rt; files.bytes(&path).is_none());
    assert!(rt; files.bytes(&name).is_none());
    Ok(())
}

#[test]
fn each_call_fails_in_turn(rt: HostRuntime) -> Result<(), Fail> {
    let path = Text::copied(rt.alloc(), PATH)?;
    let name = Text::copied(rt.alloc(), NAME)?;
    let table: [(&[u64], Stage, Option<&[u8]>); 7] = [
        (&[0], Stage::Begin, None),
        (&[1], Stage::Write, None),
        (&[2], Stage::Write, Some(b"")),
        (&[3], Stage::Write, Some(b"x")),
        (&[4], Stage::Commit, None),
        (&[4, 5], Stage::Commit, Some(b"x")),
        (&[], Stage::Whole, None),
    ];
    for (calls, stage, left) in table {
        let mut files = failing(rt.alloc(), calls)?;
        let mut numbers = number(rt.alloc())?;
        let came = publish(rt.alloc(), &mut files, &mut numbers, &path);
        assert_eq!(rt; came, stage, "at {calls:?}");
        assert_eq!(rt; files.bytes(&path).is_some(), came == Stage::Whole);
        assert_eq!(rt; files.bytes(&name), left, "at {calls:?}");
    }
    Ok(())
}

/// The name of the file aside of a path and a number, if it is begun where the first call of the files fails or none does.
fn name_begun(alloc: Global, path: &str, number: u64, fails: bool) -> Result<Option<Text>, Fail> {
    let calls: &[u64] = if fails { &[0] } else { &[] };
    let mut files = failing(alloc, calls)?;
    let mut numbers = MemoryNumbers::new([number].to_vec(alloc)?);
    let path = Text::copied(alloc, path)?;
    let Ok(aside) = Aside::begin(alloc, &mut files, &mut numbers, &path) else {
        return Ok(None);
    };
    Ok(Some(Text::copied(alloc, aside.name().as_str())?))
}

#[test]
fn names_have_ten_digits(rt: HostRuntime) -> Result<(), Fail> {
    let table = [
        ("a", 0, "a-luigi-tmp-0000000000"),
        ("/a", 9_999_999_999, "/a-luigi-tmp-9999999999"),
        ("a/b/c", 10_000_000_000, "a/b/c-luigi-tmp-0000000000"),
        ("a", u64::MAX, "a-luigi-tmp-3709551615"),
    ];
    for (path, number, wanted) in table {
        let name = name_begun(rt.alloc(), path, number, false)?.ok_or("begun")?;
        assert_eq!(rt; name.as_str(), wanted);
    }
    Ok(())
}

#[test]
fn a_folder_is_made_where_there_is_one(rt: HostRuntime) -> Result<(), Fail> {
    for (path, folder) in [
        ("a", ""),
        ("/a", ""),
        ("a/b", "a"),
        ("/a/b", "/a"),
        ("a/b/c", "a/b"),
    ] {
        assert_eq!(rt; folder::folder_above(path), folder);
        let refused = name_begun(rt.alloc(), path, 1, true)?.is_none();
        assert_eq!(rt; refused, !folder.is_empty(), "at {path}");
    }
    Ok(())
}
