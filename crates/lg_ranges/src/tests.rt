use crate::{Ask, AskFault, Period, check, parameter_of, points, required};
use lg_base::{Moment, NoMemory, Text};
use lg_params::write;
use std::alloc::Global;
use std::process::Abort;
use std::test::Fail;

// 2024-03-01, its noon and its midnight, in milliseconds.
const NOON: u64 = 1_709_294_400_000;

const MIDNIGHT: u64 = 1_709_251_200_000;

// Days from 1970-01-01. Those between have the numbers between: 2024 has a 29 February.
const FEBRUARY_27: i64 = 19_780;

const MARCH_1: i64 = 19_783;

const MARCH_3: i64 = 19_785;

fn asked(period: Period, start: Option<i64>, stop: Option<i64>) -> Ask {
    Ask {
        period,
        start,
        stop,
        back: 100,
        forward: 0,
        limit: 50,
        reverse: false,
        now: Moment(NOON),
    }
}

#[test]
fn points_lie_inside_the_bounds(rt: HostRuntime) {
    let far = 253_402_257_600_000;
    let rows = [
        // start, stop, back, forward, now, first and behind the last
        (
            Some(FEBRUARY_27),
            Some(MARCH_3),
            100,
            0,
            NOON,
            (FEBRUARY_27, 19_784),
        ),
        (
            Some(FEBRUARY_27),
            Some(FEBRUARY_27),
            100,
            0,
            NOON,
            (FEBRUARY_27, FEBRUARY_27),
        ),
        (Some(MARCH_3), None, 100, 0, NOON, (MARCH_3, MARCH_3)),
        // at noon two days back are the noon of 28 February
        (
            Some(FEBRUARY_27),
            Some(MARCH_3),
            2,
            0,
            NOON,
            (19_782, 19_784),
        ),
        // at midnight they are its midnight, and that day belongs to the points; the day that begins now doesn't
        (
            Some(FEBRUARY_27),
            Some(MARCH_3),
            2,
            0,
            MIDNIGHT,
            (19_781, MARCH_1),
        ),
        (
            Some(FEBRUARY_27),
            Some(MARCH_3),
            2,
            0,
            MIDNIGHT + 1,
            (19_782, 19_784),
        ),
        (Some(FEBRUARY_27), None, 0, 2, MIDNIGHT, (MARCH_1, MARCH_3)),
        (None, Some(19_782), 3, 0, NOON, (19_781, 19_782)),
        // from two days before 0001-01-01 on, and up to two days behind 9999-12-31
        (
            Some(-719_164),
            Some(-719_160),
            800_000,
            0,
            0,
            (-719_164, -719_160),
        ),
        (
            Some(2_932_895),
            Some(2_932_899),
            10,
            10,
            far,
            (2_932_895, 2_932_899),
        ),
    ];
    for (start, stop, back, forward, now, ends) in rows {
        let ask = Ask {
            back,
            forward,
            now: Moment(now),
            ..asked(Period::Daily, start, stop)
        };
        assert_eq!(rt; points(&ask), ends, "{ask:?}");
    }
}

#[test]
fn hours_go_over_midnight(rt: HostRuntime) {
    // from 2024-02-28T23 up to 2024-02-29T02
    let night = asked(Period::Hourly, Some(474_767), Some(474_770));
    assert_eq!(rt; points(&night), (474_767, 474_770));

    let widest = Ask {
        back: u32::MAX,
        forward: u32::MAX,
        now: Moment(u64::MAX),
        ..asked(Period::Hourly, Some(i64::MIN), Some(i64::MAX))
    };
    assert_eq!(rt; points(&widest), (5_119_800_608_736, 5_128_390_543_326));
}

#[test]
fn refusals_come_in_their_order(rt: HostRuntime) {
    let rows = [
        // start, stop, reverse, limit, answer
        (None, None, false, 0, Err(AskFault::NoBounds)),
        (None, None, true, 1, Err(AskFault::NoBounds)),
        (None, Some(5), false, 0, Err(AskFault::NeedsReverse)),
        (None, Some(5), false, 1, Err(AskFault::NeedsReverse)),
        (None, Some(5), true, 0, Err(AskFault::ZeroLimit)),
        (None, Some(5), true, 1, Ok(())),
        (Some(6), Some(5), false, 0, Err(AskFault::StartAfterStop)),
        (Some(6), Some(5), true, 1, Err(AskFault::StartAfterStop)),
        (Some(5), Some(5), false, 0, Err(AskFault::ZeroLimit)),
        (Some(5), Some(5), false, 1, Ok(())),
        (Some(5), None, true, 0, Err(AskFault::ZeroLimit)),
        (Some(5), None, false, 1, Ok(())),
    ];
    for (start, stop, reverse, limit, answer) in rows {
        let ask = Ask {
            reverse,
            limit,
            ..asked(Period::Daily, start, stop)
        };
        assert_eq!(rt; check(&ask), answer, "{ask:?}");
    }
}

/// What is required where all points but these are missing.
fn required_beside(alloc: Global, ask: &Ask, present: &[i64]) -> Result<Vec<i64>, NoMemory> {
    let (first, behind) = points(ask);
    let count = (behind - first) as usize;
    let mut missing = Vec::new(alloc);
    for place in 0..count {
        missing.push(!present.contains(&(first + place as i64)))?;
    }
    required(alloc, ask, missing.as_slice())
}

fn assert_required(
    rt: &impl Abort,
    alloc: Global,
    ask: &Ask,
    present: &[i64],
    expected: &[i64],
) -> Result<(), Fail> {
    let given = required_beside(alloc, ask, present)?;
    assert_eq!(rt; given.as_slice(), expected, "{ask:?}");
    Ok(())
}

#[test]
fn missing_points_are_required_up_to_the_limit(rt: HostRuntime) -> Result<(), Fail> {
    let rising = asked(Period::Daily, Some(FEBRUARY_27), Some(MARCH_3));
    let falling = Ask {
        reverse: true,
        ..rising
    };
    let two = Ask { limit: 2, ..rising };
    let last_two = Ask {
        limit: 2,
        ..falling
    };
    assert_required(&rt, rt.alloc(), &last_two, &[19_781], &[MARCH_1, 19_782])?;
    assert_required(&rt, rt.alloc(), &two, &[19_781], &[FEBRUARY_27, 19_782])?;
    assert_required(
        &rt,
        rt.alloc(),
        &rising,
        &[19_781],
        &[FEBRUARY_27, 19_782, MARCH_1],
    )?;
    assert_required(
        &rt,
        rt.alloc(),
        &falling,
        &[MARCH_1],
        &[19_782, 19_781, FEBRUARY_27],
    )?;
    assert_required(
        &rt,
        rt.alloc(),
        &two,
        &[19_780, 19_781, 19_782, MARCH_1],
        &[],
    )?;
    let empty = asked(Period::Daily, Some(MARCH_3), None);
    assert_required(&rt, rt.alloc(), &empty, &[], &[])
}

/// The text of a point as a parameter.
fn text_of(alloc: Global, period: Period, number: i64) -> Result<Option<Text>, NoMemory> {
    match parameter_of(period, number) {
        None => Ok(None),
        Some(param) => Ok(Some(write(alloc, &param)?)),
    }
}

#[test]
fn points_have_the_texts_of_dates(rt: HostRuntime) -> Result<(), Fail> {
    let rows = [
        (Period::Daily, 19_782, "2024-02-29"),
        (Period::Daily, -719_162, "0001-01-01"),
        (Period::Daily, 2_932_896, "9999-12-31"),
        (Period::Hourly, 474_768, "2024-02-29T00"),
        (Period::Hourly, -17_259_888, "0001-01-01T00"),
        (Period::Hourly, 70_389_527, "9999-12-31T23"),
    ];
    for (period, number, expected) in rows {
        let text = text_of(rt.alloc(), period, number)?.ok_or("no date")?;
        assert_eq!(rt; text.as_str(), expected);
    }
    let outside = [
        (Period::Daily, -719_163),
        (Period::Daily, 2_932_897),
        (Period::Hourly, -17_259_889),
        (Period::Hourly, 70_389_528),
    ];
    for (period, number) in outside {
        assert!(rt; parameter_of(period, number).is_none(), "{number}");
    }
    Ok(())
}
