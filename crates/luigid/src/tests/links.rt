//! Several links of one door, and the limit of the journal.

use super::refusals::{ANSWERED_TRUE, STOP, STOPPED};
use super::{PLAIN, Script, TWO_CALLS, TWO_RESPONSES, assert_ended, assert_served, run_of};
use crate::audit::LifeEnd;
use std::alloc::Global;
use std::process::Abort;
use std::sync::Wait;
use std::test::Fail;

/// A call that sets a limit.
const SET: &[u8] =
    b"POST /api/update_resource HTTP/1.1\r\nContent-Length: 32\r\n\r\ndata={\"resource\":\"a\",\"amount\":1}";

/// What it is answered where the life is over behind it.
const LAST_TRUE: &[u8] =
    b"HTTP/1.1 200 OK\r\nContent-Type: application/json\r\nContent-Length: 17\r\nConnection: close\r\n\r\n{\"response\":true}";

/// A front of such a call.
const CUT_SHORT: &[u8] = b"POST /api/update_resource HTTP/1.1\r\nContent-Length: 32\r\n\r\ndata={";

#[test]
fn links_are_served_one_after_another(rt: HostRuntime) -> Result<(), Fail> {
    let script = Script {
        inputs: &[SET, CUT_SHORT, STOP],
        faulty: 1,
        read: Some(2),
        ..PLAIN
    };
    let outputs: [&[u8]; 3] = [ANSWERED_TRUE, b"", STOPPED];
    assert_served(&rt, rt.alloc(), &script, &outputs, 2, LifeEnd::Stop)?;
    let ran = run_of(&rt, rt.alloc(), &script)?;
    let (journal, _) = ran.life()?.end.as_ref().ok_or("an end")?;
    let [set, stop] = journal.entries() else {
        return Err(Fail::from("two entries"));
    };
    assert_eq!(rt; (set.who.connection, set.who.nth, set.who.size), (0, 0, 27));
    assert_eq!(rt;
        (stop.who.connection, stop.who.nth, stop.who.size),
        (2, 0, 2)
    );
    Ok(())
}

#[test]
fn cuts_of_two_links_change_nothing(rt: HostRuntime) -> Result<(), Fail> {
    for most in 1..=SET.len() {
        let script = Script {
            inputs: &[SET, STOP],
            most,
            ..PLAIN
        };
        let outputs = [ANSWERED_TRUE, STOPPED];
        assert_served(&rt, rt.alloc(), &script, &outputs, 2, LifeEnd::Stop)?;
    }
    Ok(())
}

#[test]
fn no_link_is_served_behind_a_stop(rt: HostRuntime) -> Result<(), Fail> {
    let script = Script {
        inputs: &[STOP, SET],
        ..PLAIN
    };
    assert_served(&rt, rt.alloc(), &script, &[STOPPED], 1, LifeEnd::Stop)
}

#[test]
fn a_failed_door_ends_the_service(rt: HostRuntime) -> Result<(), Fail> {
    let script = Script {
        inputs: &[SET, STOP],
        accept: Some(1),
        ..PLAIN
    };
    let ran = run_of(&rt, rt.alloc(), &script)?;
    assert_eq!(rt; ran.status, 7);
    assert_eq!(rt; ran.said.bytes(), b"luigid: doors failed\n".as_slice());
    assert_ended(&rt, &ran, &[ANSWERED_TRUE], 1, LifeEnd::Doors)
}

fn repeated(alloc: Global, piece: &[u8], count: usize) -> Result<Vec<u8>, Fail> {
    let mut all = Vec::new(alloc);
    for _ in 0..count {
        all.extend_from_slice(piece)?;
    }
    Ok(all)
}

/// Runs the daemon on one link with this input, and compares that the journal was full behind so many calls and one.
fn assert_full<R: Wait + Abort>(
    rt: &R,
    alloc: Global,
    input: &[u8],
    before: usize,
    calls: usize,
) -> Result<(), Fail> {
    let script = Script {
        inputs: &[input],
        most: 1_048_576,
        ..PLAIN
    };
    let mut output = repeated(alloc, ANSWERED_TRUE, before)?;
    output.extend_from_slice(LAST_TRUE)?;
    let ran = run_of(rt, alloc, &script)?;
    assert_eq!(rt; ran.status, 8);
    assert_eq!(rt; ran.said.bytes(), b"luigid: journal full\n".as_slice());
    assert_ended(rt, &ran, &[output.as_slice()], calls, LifeEnd::Full)
}

#[test]
fn a_journal_has_so_many_entries(rt: HostRuntime) -> Result<(), Fail> {
    let input = repeated(rt.alloc(), SET, 200_001)?;
    assert_full(&rt, rt.alloc(), &input, 199_999, 200_000)
}

/// Puts a call behind others whose payload has so many blanks behind it.
fn push_long(alloc: Global, input: &mut Vec<u8>, head: &[u8], blanks: usize) -> Result<(), Fail> {
    input.extend_from_slice(head)?;
    input.extend_from_slice(b"data={\"resource\":\"a\",\"amount\":1}")?;
    input.extend_from_slice(&repeated(alloc, b"+", blanks)?)?;
    Ok(())
}

#[test]
fn a_journal_has_so_many_bytes(rt: HostRuntime) -> Result<(), Fail> {
    let alloc = rt.alloc();
    let mut input = Vec::new(alloc);
    // 256 payloads of 1,048,571 bytes, and one of 1,280: 268,435,456 in sum.
    for _ in 0..256 {
        push_long(
            alloc,
            &mut input,
            b"POST /api/update_resource HTTP/1.1\r\nContent-Length: 1048576\r\n\r\n",
            1_048_544,
        )?;
    }
    push_long(
        alloc,
        &mut input,
        b"POST /api/update_resource HTTP/1.1\r\nContent-Length: 1285\r\n\r\n",
        1_253,
    )?;
    input.extend_from_slice(SET)?;
    assert_full(&rt, alloc, &input, 256, 257)
}

#[test]
fn a_link_that_stays_quiet_is_left(rt: HostRuntime) -> Result<(), Fail> {
    let rows: [(usize, &[u8], usize, LifeEnd); 2] = [
        (599, TWO_RESPONSES, 2, LifeEnd::Stop),
        (600, b"", 0, LifeEnd::Closed),
    ];
    for (quiets, output, calls, end) in rows {
        let script = Script {
            inputs: &[TWO_CALLS],
            quiets,
            ..PLAIN
        };
        assert_served(&rt, rt.alloc(), &script, &[output], calls, end)?;
    }
    Ok(())
}
