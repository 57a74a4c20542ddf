ghost use Rattle.std.specs.Prelude.{◌≡◌, ◌^◌, ◌<◌, IfOk};
ghost use Rattle.lg_calls.specs.Request.{IsInRange};
ghost use Rattle.lg_desk.specs.Desks.{IsAt};

use crate::{CallName, Desk, DeskFault, Journal, Kept};
use lg_base::{Moment, Name, NoMemory};
use lg_calls::{Engine, Request, Settings, State, UpdateResource};
use lg_json::Out;
use lg_turn::{Pass, TurnFault};
use std::alloc::Global;
use std::sync::Wait;
use std::test::Fail;

mod limits;
mod threads;

use limits::Limits;

/// A pass of a desk over the engine of limits.
type LimitsPass = Pass<Kept<Limits>>;

/// What a call came to: whether its limit was set, or what it was refused with.
type Answer = Result<bool, DeskFault>;

// An engine that knows no limits.
fn no_limits(alloc: Global) -> Result<Limits, NoMemory> {
    match Limits::start(alloc, State::empty(alloc, Settings::new())) {
        Ok(engine) => Ok(engine),
        Err((_, fault)) => Err(fault),
    }
}

// Makes a call of so many bytes at the moment 5.
fn enter<R: Wait>(
    rt: &R,
    alloc: Global,
    desk: &Desk<Limits>,
    pass: &mut LimitsPass,
    size: u32,
    request: Request,
) -> Answer
    requires pass { IsAt desk.now pass.old }
    requires in_range { IsInRange request }
    ensures pass { IsAt desk.now pass.new }
{
    let who = CallName {
        lane: 0,
        connection: 0,
        nth: 0,
        size,
    };
    let reply = desk.call(rt, alloc, pass, who, Moment(5), request)?;
    Ok(matches!(reply.0, Out::Truth(true)))
}

// Sets the limit of a resource to this amount, or asks to; one below 0 isn't set.
fn limit_of(alloc: Global, amount: i32) -> Result<Request, NoMemory>
    ensures { IfOk result (λ request. IsInRange request) }
{
    let Ok(resource) = Name::text(alloc, b"gpu") else {
        return Err(NoMemory);
    };
    Ok(Request::UpdateResource(UpdateResource {
        resource,
        amount: i64::from(amount),
    }))
}

// The numbers of the passes that made the entries.
fn passes_of(alloc: Global, journal: &Journal) -> Result<Vec<u32>, NoMemory> {
    Ok(
        journal
            .entries()
            .iter()
            .map(|entry| entry.pass)
            .collect(alloc)?,
    )
}

// A desk for two callers, with one pass.
fn desk_of_two(alloc: Global) -> Result<(Desk<Limits>, LimitsPass), NoMemory>
    ensures { IfOk result (λ made. IsAt made.0 made.1) }
{
    match Desk::make(alloc, no_limits(alloc)?, 2) {
        Ok(made) => Ok(made),
        Err((_, fault)) => Err(fault),
    }
}

// Two passes enter a call each, and the journal has both in the order of their replies. A third pass is refused, and so is
// the end while two are out.
#[test]
fn two_passes_make_one_journal(rt: HostRuntime) -> Result<(), Fail> {
    let (desk, mut first) = desk_of_two(rt.alloc())?;
    let mut second = desk.split(&mut first)?;
    assert_eq!(rt; desk.split(&mut first).err(), Some(TurnFault::Many));
    let one = limit_of(rt.alloc(), 2)?;
    assert_eq!(rt;
        enter(&rt, rt.alloc(), &desk, &mut second, 7, one),
        Ok(true)
    );
    let other = limit_of(rt.alloc(), -1)?;
    assert_eq!(rt;
        enter(&rt, rt.alloc(), &desk, &mut first, 7, other),
        Ok(false)
    );
    let Err((desk, mut first)) = desk.close(first) else {
        panic!(rt; "a pass was out")
    };
    desk.join(&mut first, second);
    let Ok((engine, journal)) = desk.close(first) else {
        panic!(rt; "no pass was out")
    };
    assert_eq!(rt;
        passes_of(rt.alloc(), &journal)?.as_slice(),
        [1, 0].as_slice()
    );
    assert_eq!(rt;
        engine.finish().limits.get(&Name::text(rt.alloc(), b"gpu")?),
        2
    );
    Ok(())
}

// Behind a stop, and behind a call that fills the journal, the other pass finds that the journal is over, and its call isn't
// entered.
#[test]
fn a_journal_that_is_over_takes_no_call(rt: HostRuntime) -> Result<(), Fail> {
    for (size, amount) in [(2, None), (268_435_456, Some(2))] {
        let (desk, mut first) = desk_of_two(rt.alloc())?;
        let mut second = desk.split(&mut first)?;
        assert!(rt; !desk.stopped(&rt, &mut second));
        let request = match amount {
            Some(amount) => limit_of(rt.alloc(), amount)?,
            None => Request::Stop,
        };
        assert_eq!(rt;
            enter(&rt, rt.alloc(), &desk, &mut first, size, request).is_ok(),
            true
        );
        assert!(rt; desk.stopped(&rt, &mut second));
        let late = enter(&rt, rt.alloc(), &desk, &mut second, 2, Request::Stop);
        assert_eq!(rt; late, Err(DeskFault::Over(1)));
        desk.join(&mut first, second);
        let Ok((_, journal)) = desk.close(first) else {
            panic!(rt; "no pass was out")
        };
        assert_eq!(rt; passes_of(rt.alloc(), &journal)?.as_slice(), [0].as_slice());
    }
    Ok(())
}

// A call that finds no memory isn't entered, and a stop behind it is.
#[test]
fn a_stop_gets_through_behind_want_of_memory(rt: HostRuntime) -> Result<(), Fail> {
    let (desk, mut only) = desk_of_two(rt.alloc())?;
    let refused = enter(&rt, rt.alloc(), &desk, &mut only, 2, Request::Pause);
    assert_eq!(rt; refused, Err(DeskFault::NoMemory));
    let stopped = enter(&rt, rt.alloc(), &desk, &mut only, 2, Request::Stop);
    assert_eq!(rt; stopped, Ok(false));
    let Ok((_, journal)) = desk.close(only) else {
        panic!(rt; "no pass was out")
    };
    assert_eq!(rt; passes_of(rt.alloc(), &journal)?.as_slice(), [0].as_slice());
    Ok(())
}
