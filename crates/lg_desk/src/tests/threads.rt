//! Callers in threads of their own, at one desk.
ghost use Rattle.std.specs.Prelude.{◌≡◌};
ghost use Rattle.lg_desk.specs.Desks.{IsAt};

use super::{LimitsPass, enter, limit_of, no_limits};
use crate::Desk;
use crate::tests::limits::Limits;
use std::alloc::Global;
use std::sync::Wait;
use std::test::Fail;
use std::thread::for_each_mut;

// Sets a limit by a call of so many bytes, or asks for one below 0 where the number is odd. True where it is answered so.
fn is_answered<R: Wait>(
    rt: &R,
    alloc: Global,
    desk: &Desk<Limits>,
    pass: &mut LimitsPass,
    size: u32,
) -> bool
    requires pass { IsAt desk.now pass.old }
    ensures pass { IsAt desk.now pass.new }
{
    let is_even = size % 2 == 0;
    let Ok(request) = limit_of(alloc, if is_even { 2 } else { -1 }) else {
        return false;
    };
    enter(rt, alloc, desk, pass, size, request) == Ok(is_even)
}

// Makes twenty calls, of 0 bytes and more in turn. True where each is answered as its own limit wants it.
fn enter_twenty<R: Wait>(rt: &R, alloc: Global, desk: &Desk<Limits>, pass: &mut LimitsPass) -> bool
    requires pass { IsAt desk.now pass.old }
    ensures pass { IsAt desk.now pass.new }
{
    let mut all = true;
    for size in 0..20 {
        if !is_answered(rt, alloc, desk, pass, size) {
            all = false;
        }
    }
    all
}

// Three threads make twenty calls each, by a pass each, and each call is answered as its own limit wants it.
#[test]
fn three_threads_are_answered_at_one_desk(rt: HostRuntime) -> Result<(), Fail> {
    let alloc = rt.alloc();
    let engine = no_limits(alloc)?;
    let (desk, mut passes) = Desk::make_all(alloc, engine, 3).map_err(|back| back.1)?;
    for_each_mut(
        &rt,
        passes.as_mut_slice(),
        3,
        &|_, pass| {
            assert!(rt; enter_twenty(&rt, alloc, &desk, pass));
        },
    );
    Ok(())
}
