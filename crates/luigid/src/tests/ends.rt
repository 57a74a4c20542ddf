//! How the daemon ends, and what it tells.
use super::{PLAIN, Script, TWO_CALLS, run_of, status_of};
use crate::audit::{Audit, LifeEnd, LineAudit};
use lg_base::{NoMemory, Text};
use lg_calls::State;
use lg_desk::Journal;
use lg_io::{DiskFiles, FileRead, Files, MemorySink, NoFaults};
use std::alloc::Global;
use std::process::Abort;
use std::sync::Wait;
use std::test::Fail;

/// An audit for which there is no memory.
#[derive(Drop)]
struct FullAudit;

impl Audit for FullAudit {
    ghost use Rattle.std.specs.Prelude.{None};
    ghost use Rattle.lg_io.specs.Rest.{nothing};

    ghost lives = { λ _. None };

    ghost rest = { λ _. nothing };

    fn begins(&mut self, _alloc: Global, _base: &State) -> Result<(), NoMemory> {
        Err(NoMemory)
    }

    fn ends(&mut self, _journal: Journal, _end: LifeEnd) {}
}

/// Runs the daemon on a script, and compares its status, its line and how many lives it had.
fn assert_ends<R: Wait + Abort>(
    rt: &R,
    alloc: Global,
    script: &Script<'_, '_>,
    status: u8,
    line: &[u8],
    lives: usize,
) -> Result<(), Fail> {
    let ran = run_of(rt, alloc, script)?;
    assert_eq!(rt; ran.status, status);
    assert_eq!(rt; ran.said.bytes(), line);
    assert_eq!(rt; ran.audit.lives().len(), lives);
    Ok(())
}

#[test]
fn each_end_has_its_status_and_line(rt: HostRuntime) -> Result<(), Fail> {
    let alloc = rt.alloc();
    assert_ends(&rt, alloc, &PLAIN, 0, b"", 1)?;
    let none = Script {
        words: &[],
        ..PLAIN
    };
    assert_ends(&rt, alloc, &none, 2, b"luigid: bad words\n", 0)?;
    let other = Script {
        words: &["--stdi"],
        ..PLAIN
    };
    assert_ends(&rt, alloc, &other, 2, b"luigid: bad words\n", 0)?;
    let twice = Script {
        words: &["--stdio", "--stdio"],
        ..PLAIN
    };
    assert_ends(&rt, alloc, &twice, 2, b"luigid: bad words\n", 0)?;
    let unbound = Script {
        bind: Some(0),
        ..PLAIN
    };
    assert_ends(&rt, alloc, &unbound, 4, b"luigid: cannot listen\n", 0)?;
    let broken = Script {
        accept: Some(0),
        ..PLAIN
    };
    assert_ends(&rt, alloc, &broken, 7, b"luigid: doors failed\n", 1)
}

#[test]
fn want_of_memory_has_its_status_and_line(rt: HostRuntime) -> Result<(), Fail> {
    let mut doors = Vec::new(rt.alloc());
    let mut said = MemorySink::new(rt.alloc(), 4096, NoFaults);
    let status = status_of(
        &rt,
        rt.alloc(),
        &PLAIN,
        &mut doors,
        &mut FullAudit,
        &mut said,
    )?;
    assert_eq!(rt; status, 71);
    assert_eq!(rt; said.bytes(), b"luigid: no memory\n".as_slice());
    Ok(())
}

#[test]
fn a_line_tells_of_each_life(rt: HostRuntime) -> Result<(), Fail> {
    let mut audit = LineAudit::new(MemorySink::new(rt.alloc(), 4096, NoFaults));
    let mut said = MemorySink::new(rt.alloc(), 4096, NoFaults);
    for script in [
        Script {
            inputs: &[TWO_CALLS],
            ..PLAIN
        },
        PLAIN,
    ] {
        let mut doors = Vec::new(rt.alloc());
        status_of(&rt, rt.alloc(), &script, &mut doors, &mut audit, &mut said)?;
    }
    assert_eq!(rt;
        audit.sink.bytes(),
        b"life 2 stop\nlife 0 closed\n".as_slice()
    );
    Ok(())
}

#[test]
fn disk_keeps_what_is_written(rt: HostRuntime) -> Result<(), Fail> {
    let mut files = DiskFiles::new(&rt);
    let path = Text::copied(rt.alloc(), "disk-test")?;
    let aside = Text::copied(rt.alloc(), "disk-test-aside")?;
    files.make_folder(&Text::copied(rt.alloc(), ".")?)?;
    files.create(&aside)?;
    files.append(&aside, b"ab")?;
    files.append(&aside, b"c")?;
    files.close(&aside)?;
    files.rename(&aside, &path)?;
    assert!(rt; !files.exists(&aside)?);
    assert!(rt; files.append(&aside, b"d").is_err());
    let FileRead::Found(bytes) = files.read(rt.alloc(), &path) else {
        return Err(Fail::from("no file"));
    };
    assert_eq!(rt; bytes.as_slice(), b"abc".as_slice());
    files.remove(&path)?;
    files.remove(&path)?;
    assert!(rt; matches!(files.read(rt.alloc(), &path), FileRead::Absent));
    Ok(())
}
