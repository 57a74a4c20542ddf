//! Calls that are answered, however the bytes come, and faults at each place.
use super::{NULL_AT, PLAIN, STOP_AT, Script, TWO_CALLS, TWO_RESPONSES, assert_served, run_of};
use crate::audit::LifeEnd;
use lg_base::Moment;
use lg_io::ClockEvent;
use std::test::Fail;

#[test]
fn two_calls_are_answered_and_entered(rt: HostRuntime) -> Result<(), Fail> {
    let script = Script {
        inputs: &[TWO_CALLS],
        ..PLAIN
    };
    assert_served(&rt, rt.alloc(), &script, &[TWO_RESPONSES], 2, LifeEnd::Stop)?;
    let ran = run_of(&rt, rt.alloc(), &script)?;
    let (journal, _) = ran.life()?.end.as_ref().ok_or("an end")?;
    for entry in journal.entries() {
        assert_eq!(rt; entry.now, Moment(5));
    }
    let told = ran
        .doors
        .first()
        .ok_or("a door")?
        .clock_calls()
        .ok_or("told")?;
    let readings = [
        ClockEvent::Reading(Moment(5)),
        ClockEvent::Reading(Moment(5)),
    ];
    assert_eq!(rt; told, readings.as_slice());
    Ok(())
}

#[test]
fn cuts_of_the_input_change_nothing(rt: HostRuntime) -> Result<(), Fail> {
    for most in 1..=TWO_CALLS.len() {
        let script = Script {
            inputs: &[TWO_CALLS],
            most,
            ..PLAIN
        };
        assert_served(&rt, rt.alloc(), &script, &[TWO_RESPONSES], 2, LifeEnd::Stop)?;
    }
    Ok(())
}

#[test]
fn a_failed_read_leaves_what_was_answered(rt: HostRuntime) -> Result<(), Fail> {
    for read in 0..=TWO_CALLS.len() {
        let script = Script {
            inputs: &[TWO_CALLS],
            most: 1,
            read: Some(read as u64),
            ..PLAIN
        };
        let (calls, answered) = if read <= STOP_AT {
            (0, 0)
        } else {
            (1, NULL_AT)
        };
        let output = &TWO_RESPONSES[..answered];
        assert_served(&rt, rt.alloc(), &script, &[output], calls, LifeEnd::Closed)?;
    }
    Ok(())
}

#[test]
fn a_failed_write_leaves_a_front(rt: HostRuntime) -> Result<(), Fail> {
    for write in 0..TWO_RESPONSES.len() {
        let script = Script {
            inputs: &[TWO_CALLS],
            most: 1,
            write: Some(write as u64),
            ..PLAIN
        };
        let output = &TWO_RESPONSES[..write];
        let (calls, end) = if write < NULL_AT {
            (1, LifeEnd::Closed)
        } else {
            (2, LifeEnd::Stop)
        };
        assert_served(&rt, rt.alloc(), &script, &[output], calls, end)?;
    }
    Ok(())
}
