use super::*;
use crate::{
    Accept, BindFault, Clock, Door, FileRead, Files, Net, Numbers, ReadStep, Sink, Source,
    write_all,
};
use lg_base::{Failed, Moment, Text};
use std::alloc::Global;
use std::test::Fail;

/// The answers of so many reads into a buffer of 8 bytes.
fn answers<S: Source>(alloc: Global, source: &mut S, reads: usize) -> Result<Vec<ReadStep>, Fail> {
    let mut steps = Vec::new(alloc);
    let mut buf = [0; 8];
    for _ in 0..reads {
        steps.push(source.read(&mut buf))?;
    }
    Ok(steps)
}

/// The moments of so many readings.
fn moments<K: Clock>(alloc: Global, clock: &mut K, readings: usize) -> Result<Vec<Moment>, Fail> {
    let mut given = Vec::new(alloc);
    for _ in 0..readings {
        given.push(clock.now())?;
    }
    Ok(given)
}

fn quiet_link(alloc: Global, input: &[u8]) -> Result<MemoryLink<NoFaults>, Fail> {
    let source = MemorySource::new(input.to_vec(alloc)?, Vec::new(alloc), NoFaults);
    let sink = MemorySink::new(alloc, 2, NoFaults);
    Ok(MemoryLink { source, sink })
}

fn clock_of(alloc: Global, moments: &[Moment], room: usize) -> Result<MemoryClock, Fail> {
    Ok(MemoryClock::new(alloc, moments.to_vec(alloc)?, room)?)
}

#[test]
fn source_follows_its_turns_and_plan(rt: HostRuntime) -> Result<(), Fail> {
    let turns = [Turn::Piece(1), Turn::Quiet].to_vec(rt.alloc())?;
    let plan = FaultList::new([1].to_vec(rt.alloc())?);
    let mut source = MemorySource::new(b"abc".to_vec(rt.alloc())?, turns, plan);
    let steps = answers(rt.alloc(), &mut source, 6)?;
    let wanted = [
        ReadStep::Bytes(1),
        ReadStep::Failed,
        ReadStep::Quiet,
        ReadStep::Bytes(2),
        ReadStep::End,
        ReadStep::End,
    ];
    assert_eq!(rt; steps.as_slice(), wanted.as_slice());
    assert_eq!(rt; source.given(), b"abc".as_slice());
    assert!(rt; source.is_ended());
    assert_eq!(rt; source.quiets(), 0);
    assert_eq!(rt; source.fault_count(), 1);
    Ok(())
}

#[test]
fn sink_takes_pieces_until_a_write_fails(rt: HostRuntime) -> Result<(), Fail> {
    let plan = FaultList::new([2].to_vec(rt.alloc())?);
    let mut sink = MemorySink::new(rt.alloc(), 1, plan);
    assert!(rt; write_all(&mut sink, b"abc").is_err());
    assert!(rt; write_all(&mut sink, b"d").is_ok());
    assert_eq!(rt; sink.bytes(), b"abd".as_slice());
    assert_eq!(rt; sink.planned_faults(), 1);
    Ok(())
}

#[test]
fn clock_never_falls_and_tells_in_its_room(rt: HostRuntime) -> Result<(), Fail> {
    let mut clock = clock_of(rt.alloc(), &[Moment(5), Moment(3)], 3)?;
    clock.pause(7);
    let given = moments(rt.alloc(), &mut clock, 2)?;
    assert_eq!(rt; given.as_slice(), [Moment(5), Moment(5)].as_slice());
    let told = clock.calls().ok_or("told")?;
    let wanted = [
        ClockEvent::Pause(7),
        ClockEvent::Reading(Moment(5)),
        ClockEvent::Reading(Moment(5)),
    ];
    assert_eq!(rt; told, wanted.as_slice());
    assert_eq!(rt; clock.now(), Moment(5));
    assert!(rt; clock.calls().is_none());
    Ok(())
}

#[test]
fn door_hands_out_and_takes_back(rt: HostRuntime) -> Result<(), Fail> {
    let visits = vec![in rt.alloc(); Visit::Quiet, Visit::Conn(quiet_link(rt.alloc(), b"in")?)]?;
    let clock = clock_of(rt.alloc(), &[Moment(9)], 1)?;
    let mut door = MemoryDoor::new(rt.alloc(), visits, clock, NoFaults);
    assert!(rt; matches!(door.accept(rt.alloc()), Accept::Quiet));
    let Accept::Conn(mut link) = door.accept(rt.alloc()) else {
        return Err(Fail::from("no link"));
    };
    let steps = answers(rt.alloc(), &mut link, 2)?;
    assert_eq!(rt;
        steps.as_slice(),
        [ReadStep::Bytes(2), ReadStep::End].as_slice()
    );
    assert!(rt; write_all(&mut link, b"out").is_ok());
    door.done(link);
    assert!(rt; matches!(door.accept(rt.alloc()), Accept::Closed));
    assert!(rt; matches!(door.accept(rt.alloc()), Accept::Closed));
    let ended = door.ended();
    assert_eq!(rt; ended.len(), 1);
    assert_eq!(rt; ended[0].source.given(), b"in".as_slice());
    assert_eq!(rt; ended[0].sink.bytes(), b"out".as_slice());
    assert_eq!(rt; door.now(), Moment(9));
    Ok(())
}

#[test]
fn net_hands_out_its_doors(rt: HostRuntime) -> Result<(), Fail> {
    let address = Text::copied(rt.alloc(), "host")?;
    let plan = FaultList::new([0].to_vec(rt.alloc())?);
    let clock = clock_of(rt.alloc(), &[], 0)?;
    let none = FaultList::new(Vec::new(rt.alloc()));
    let door = MemoryDoor::new(rt.alloc(), Vec::new(rt.alloc()), clock, none);
    let doors = vec![in rt.alloc(); door]?;
    let mut net = MemoryNet::new(rt.alloc(), doors, plan, 3)?;
    let refused = net.bind(rt.alloc(), &address, 80, 1);
    assert!(rt; matches!(refused, Err(BindFault::Failed)));
    let bound = net.bind(rt.alloc(), &address, 80, 1);
    assert!(rt; matches!(bound, Ok(_)));
    let missing = net.bind(rt.alloc(), &address, 80, 1);
    assert!(rt; matches!(missing, Err(BindFault::Failed)));
    let told = net.binds().ok_or("told")?;
    assert_eq!(rt; told.len(), 3);
    assert_eq!(rt; told[2].port, 80);
    assert_eq!(rt; told[2].address.bytes(), b"host".as_slice());
    Ok(())
}

#[test]
fn numbers_are_those_of_the_list(rt: HostRuntime) -> Result<(), Fail> {
    let mut numbers = MemoryNumbers::new([4, 2].to_vec(rt.alloc())?);
    assert_eq!(rt; drawn(&mut numbers), 4);
    assert_eq!(rt; drawn(&mut numbers), 2);
    assert_eq!(rt; drawn(&mut numbers), 0);
    Ok(())
}

fn drawn<N: Numbers>(numbers: &mut N) -> u64 {
    numbers.draw()
}

/// Writes a file aside and moves it to its path.
fn write_file<F: Files>(
    files: &mut F,
    aside: &Text,
    path: &Text,
    bytes: &[u8],
) -> Result<(), Failed> {
    files.make_folder(path)?;
    files.create(aside)?;
    files.append(aside, bytes)?;
    files.append(aside, b".")?;
    files.close(aside)?;
    files.rename(aside, path)
}

#[test]
fn files_hold_what_was_written(rt: HostRuntime) -> Result<(), Fail> {
    let mut files = MemoryFiles::new(rt.alloc(), Vec::new(rt.alloc()), NoFaults);
    let aside = Text::copied(rt.alloc(), "aside")?;
    let path = Text::copied(rt.alloc(), "state")?;
    assert!(rt; write_file(&mut files, &aside, &path, b"one").is_ok());
    let FileRead::Found(bytes) = files.read(rt.alloc(), &path) else {
        return Err(Fail::from("no file"));
    };
    assert_eq!(rt; bytes.as_slice(), b"one.".as_slice());
    assert_eq!(rt; files.exists(&aside), Ok(false));
    assert_eq!(rt; files.exists(&path), Ok(true));
    assert!(rt; files.remove(&path).is_ok());
    assert!(rt; files.remove(&path).is_ok());
    assert!(rt; matches!(files.read(rt.alloc(), &path), FileRead::Absent));
    assert!(rt; files.append(&path, b"x").is_err());
    Ok(())
}

#[test]
fn files_fail_and_appear_at_their_calls(rt: HostRuntime) -> Result<(), Fail> {
    let coming = Appearance {
        call: 1,
        front: Text::copied(rt.alloc(), "out")?,
        back: Text::copied(rt.alloc(), "7")?,
        bytes: b"new".to_vec(rt.alloc())?,
    };
    let plan = FaultList::new([2].to_vec(rt.alloc())?);
    let mut files = MemoryFiles::new(rt.alloc(), vec![in rt.alloc(); coming]?, plan);
    let path = Text::copied(rt.alloc(), "out-luigi-tmp-7")?;
    let target = Text::copied(rt.alloc(), "out")?;
    assert_eq!(rt; files.exists(&path), Ok(false));
    assert_eq!(rt; files.exists(&path), Ok(true));
    assert!(rt; files.rename(&path, &target).is_err());
    assert!(rt; files.bytes(&target).is_none());
    assert!(rt; files.rename(&path, &target).is_ok());
    assert_eq!(rt; files.bytes(&target), Some(b"new".as_slice()));
    Ok(())
}
