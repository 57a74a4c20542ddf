use crate::{Failures, Policy};
use lg_base::{Moment, NoMemory};
use std::alloc::Global;
use std::test::Fail;

// The failures of a task that fails at these moments.
fn failures_at(alloc: Global, moments: &[u64], policy: &Policy) -> Result<Failures, NoMemory> {
    let mut failures = Failures::new(alloc);
    for moment in moments {
        failures.reserve()?;
        failures.add(Moment(*moment), policy);
    }
    Ok(failures)
}

#[test]
fn count_up_to_the_edge_of_the_window(rt: HostRuntime) -> Result<(), Fail> {
    let rows = [
        // failed at, window, now, count
        (1_000, 100, 1_000, 1),
        (1_000, 100, 1_100, 1),
        (1_000, 100, 1_101, 0),
        (1_000, 0, 1_000, 1),
        (1_000, 0, 1_001, 0),
        (0, 1_000, 999, 1),
        (0, u64::MAX, u64::MAX, 1),
        (0, u64::MAX - 1, u64::MAX, 0),
    ];
    for (failed_at, disable_window, now, count) in rows {
        let policy = Policy {
            retry_count: 9,
            disable_window,
            disable_hard_timeout: 9,
        };
        let failures = failures_at(rt.alloc(), [failed_at].as_slice(), &policy)?;
        assert_eq!(rt;
            failures.count(Moment(now), &policy),
            count,
            "{failed_at} {now}"
        );
    }
    Ok(())
}

#[test]
fn are_excessive_by_number_or_by_time(rt: HostRuntime) -> Result<(), Fail> {
    let rows = [
        // first failure, retry count, hard timeout, now, excessive
        (None, 0, 0, 1_000, true),
        (None, 1, 0, 1_000, false),
        (Some(1_000), 0, 500, 1_000, true),
        (Some(1_000), 1, 500, 1_000, true),
        (Some(1_000), 1, 500, 1_100, true),
        (Some(1_000), 1, 500, 1_101, false),
        (Some(1_000), 2, 500, 1_499, false),
        (Some(1_000), 2, 500, 1_500, true),
        (Some(1_000), 2, 0, 1_000, true),
        (Some(1_000), 2, 0, 999, false),
        (Some(u64::MAX - 1), 2, u64::MAX, u64::MAX, false),
        (Some(0), 2, u64::MAX, u64::MAX, true),
    ];
    for (failed_at, retry_count, disable_hard_timeout, now, excessive) in rows {
        let policy = Policy {
            retry_count,
            disable_window: 100,
            disable_hard_timeout,
        };
        let mut failures = Failures::new(rt.alloc());
        if let Some(failed_at) = failed_at {
            failures.reserve()?;
            failures.add(Moment(failed_at), &policy);
        }
        assert_eq!(rt;
            failures.excessive(Moment(now), &policy),
            excessive,
            "{retry_count} {now}"
        );
    }
    Ok(())
}

// With two failures in an hour allowed, a second one disables up to an hour behind the first, and no longer.
#[test]
fn second_failure_within_the_hour(rt: HostRuntime) -> Result<(), Fail> {
    let policy = Policy {
        retry_count: 2,
        disable_window: 3_600_000,
        disable_hard_timeout: 999_999_999_000,
    };
    let once = failures_at(rt.alloc(), [1_000].as_slice(), &policy)?;
    assert!(rt; !once.excessive(Moment(1_000), &policy));

    let twice = failures_at(rt.alloc(), [1_000, 3_601_000].as_slice(), &policy)?;
    assert!(rt; twice.excessive(Moment(3_601_000), &policy));
    assert_eq!(rt;
        twice.moments(),
        [Moment(1_000), Moment(3_601_000)].as_slice()
    );

    let later = failures_at(rt.alloc(), [1_000, 3_601_001].as_slice(), &policy)?;
    assert!(rt; !later.excessive(Moment(3_601_001), &policy));
    assert_eq!(rt; later.first(), Some(Moment(1_000)));
    assert_eq!(rt; later.moments(), [Moment(3_601_001)].as_slice());
    Ok(())
}

#[test]
fn are_copied_stored_and_forgotten(rt: HostRuntime) -> Result<(), Fail> {
    let policy = Policy {
        retry_count: 2,
        disable_window: 10,
        disable_hard_timeout: 1_000,
    };
    let (first, moments) = failures_at(rt.alloc(), [5, 7].as_slice(), &policy)?
        .clone()?
        .into_parts();
    let mut failures = Failures::from_parts(first, moments);
    assert_eq!(rt; failures.first(), Some(Moment(5)));
    assert_eq!(rt; failures.count(Moment(7), &policy), 2);

    failures.forget();
    assert_eq!(rt; failures.first(), None);
    assert_eq!(rt; failures.count(Moment(7), &policy), 0);

    failures.reserve()?;
    failures.add(Moment(8), &policy);
    assert_eq!(rt; failures.first(), Some(Moment(8)));
    Ok(())
}
