//! Runs of the daemon over links in memory.
ghost use Rattle.std.specs.Prelude.{◌≡◌, []};

use crate::audit::{Audit, AuditedLife, LifeEnd, MemoryAudit};
use crate::daemon::luigid;
use lg_base::{Moment, Text};
use lg_io::{
    FaultList, MemoryClock, MemoryDoor, MemoryFiles, MemoryLink, MemoryNet, MemoryNumbers,
    MemorySink, MemorySource, NoFaults, Turn, Visit,
};
use std::alloc::Global;
use std::process::Abort;
use std::sync::Wait;
use std::test::Fail;

mod answers;
mod calls;
mod ends;
mod links;
mod refusals;
mod sessions;
mod working;

/// A call that sets a limit, and a stop.
const TWO_CALLS: &[u8] =
    b"POST /api/update_resource HTTP/1.1\r\nHost: x\r\nContent-Length: 56\r\n\r\ndata=%7B%22resource%22%3A%22gpu%22%2C%22amount%22%3A2%7DPOST /api/stop HTTP/1.1\r\nHost: x\r\nContent-Length: 0\r\n\r\n";

/// Where the stop begins.
const STOP_AT: usize = 123;

/// The two responses.
const TWO_RESPONSES: &[u8] =
    b"HTTP/1.1 200 OK\r\nContent-Type: application/json\r\nContent-Length: 17\r\n\r\n{\"response\":true}HTTP/1.1 200 OK\r\nContent-Type: application/json\r\nContent-Length: 17\r\nConnection: close\r\n\r\n{\"response\":null}";

/// Where the second response begins.
const NULL_AT: usize = 88;

/// What the outside does: the inputs of the links that come; how many bytes a read gives and a write takes at most; how often
/// a link is quiet before its first byte; the moments of the calls, the last of which goes on; and which calls fail, by their
/// numbers, those of one link among them.
#[derive(Clone, Copy)]
struct Script<'a, 'b> {
    words: &'static [&'static str],
    inputs: &'a [&'b [u8]],
    most: usize,
    quiets: usize,
    moments: &'static [Moment],
    faulty: usize,
    read: Option<u64>,
    write: Option<u64>,
    accept: Option<u64>,
    bind: Option<u64>,
}

/// Whole reads and writes, and no fault.
const PLAIN: Script<'static, 'static> = Script {
    words: &["--stdio"],
    inputs: &[],
    most: 4096,
    quiets: 1,
    moments: &[Moment(5)],
    faulty: 0,
    read: None,
    write: None,
    accept: None,
    bind: None,
};

/// What a run did.
#[derive(Drop)]
struct Ran {
    status: u8,
    doors: Vec<MemoryDoor<FaultList>>,
    audit: MemoryAudit,
    said: MemorySink<NoFaults>,
}

impl Ran {
    /// The links that were handed back.
    fn links(&self) -> Result<&[MemoryLink<FaultList>], Fail> {
        Ok(self.doors.first().ok_or("a door")?.ended())
    }

    /// The one life.
    fn life(&self) -> Result<&AuditedLife, Fail> {
        Ok(self.audit.lives().first().ok_or("a life")?)
    }
}

fn plan(alloc: Global, failing: Option<u64>) -> Result<FaultList, Fail> {
    Ok(FaultList::new(failing.into_iter().collect(alloc)?))
}

/// The link of that number.
fn link_of(
    alloc: Global,
    script: &Script<'_, '_>,
    number: usize,
    input: &[u8],
) -> Result<MemoryLink<FaultList>, Fail> {
    let mut turns = vec![in alloc; Turn::Quiet; script.quiets]?;
    for _ in 0..=input.len() / script.most.max(1) {
        turns.push(Turn::Piece(script.most))?;
    }
    let (read, write) = if number == script.faulty {
        (script.read, script.write)
    } else {
        (None, None)
    };
    let source = MemorySource::new(input.to_vec(alloc)?, turns, plan(alloc, read)?);
    let sink = MemorySink::new(alloc, script.most, plan(alloc, write)?);
    Ok(MemoryLink { source, sink })
}

fn door_of(alloc: Global, script: &Script<'_, '_>) -> Result<MemoryDoor<FaultList>, Fail> {
    let mut visits = Vec::new(alloc);
    for (number, input) in script.inputs.iter().enumerate() {
        visits.push(Visit::Conn(link_of(alloc, script, number, input)?))?;
    }
    let clock = MemoryClock::new(alloc, script.moments.to_vec(alloc)?, 4)?;
    Ok(MemoryDoor::new(alloc, visits, clock, plan(alloc, script.accept)?))
}

/// Runs the daemon on a script, and tells the audit.
fn status_of<R: Wait, U: Audit>(
    rt: &R,
    alloc: Global,
    script: &Script<'_, '_>,
    doors: &mut Vec<MemoryDoor<FaultList>>,
    audit: &mut U,
    said: &mut MemorySink<NoFaults>,
) -> Result<u8, Fail>
    requires { doors.old.items ≡ [] }
{
    let mut words = Vec::new(alloc);
    for word in script.words {
        words.push(Text::copied(alloc, word)?)?;
    }
    let bound = vec![in alloc; door_of(alloc, script)?]?;
    let mut net = MemoryNet::new(alloc, bound, plan(alloc, script.bind)?, 1)?;
    let mut files = MemoryFiles::new(alloc, Vec::new(alloc), NoFaults);
    let mut numbers = MemoryNumbers::new(Vec::new(alloc));
    let mut out = MemorySink::new(alloc, 1, NoFaults);
    Ok(luigid(
        rt,
        alloc,
        &words,
        &mut net,
        doors,
        &mut files,
        &mut numbers,
        audit,
        &mut out,
        said,
    ))
}

/// Runs the daemon on a script.
fn run_of<R: Wait>(rt: &R, alloc: Global, script: &Script<'_, '_>) -> Result<Ran, Fail> {
    let mut doors = Vec::new(alloc);
    let mut audit = MemoryAudit::new(alloc);
    let mut said = MemorySink::new(alloc, 4096, NoFaults);
    let status = status_of(rt, alloc, script, &mut doors, &mut audit, &mut said)?;
    Ok(Ran {
        status,
        doors,
        audit,
        said,
    })
}

/// Runs the daemon on a script, and compares what it wrote to each link, how many calls it entered and how its life
/// ended. The status is 0.
fn assert_served<R: Wait + Abort>(
    rt: &R,
    alloc: Global,
    script: &Script<'_, '_>,
    outputs: &[&[u8]],
    calls: usize,
    end: LifeEnd,
) -> Result<(), Fail> {
    let ran = run_of(rt, alloc, script)?;
    assert_eq!(rt; ran.status, 0);
    assert!(rt; ran.said.bytes().is_empty());
    assert_ended(rt, &ran, outputs, calls, end)
}

/// Compares what a run wrote to each link, how many calls it entered and how its life ended.
fn assert_ended<A: Abort>(
    rt: &A,
    ran: &Ran,
    outputs: &[&[u8]],
    calls: usize,
    end: LifeEnd,
) -> Result<(), Fail> {
    let links = ran.links()?;
    assert_eq!(rt; links.len(), outputs.len());
    for (link, output) in links.iter().zip(outputs) {
        assert_eq!(rt; link.sink.bytes(), *output);
    }
    assert_eq!(rt; ran.audit.lives().len(), 1);
    let (journal, ended) = ran.life()?.end.as_ref().ok_or("an end")?;
    assert_eq!(rt; journal.len(), calls);
    assert_eq!(rt; *ended, end);
    Ok(())
}
