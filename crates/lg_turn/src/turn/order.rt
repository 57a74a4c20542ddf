ghost use Rattle.lg_turn.specs.Passes.{IsAway, IsPassOf};

use super::{TICKET, Turn};
use crate::Pass;
use crate::rounds::{Rounds, finish};
use std::sync::Wait;
use std::test::Fail;
use std::thread;
use std::thread::for_each_mut;

// True as soon as so many tickets were drawn; false where a million looks don't see it.
fn sees_tickets(turn: &Turn<Rounds>, tickets: u64) -> bool {
    for _ in 0..1_000_000 {
        if turn.table.shared.peek(TICKET) == tickets {
            return true;
        }
        thread::yield_now();
    }
    false
}

// The pass of number 2 draws the first ticket, and the one of number 0 the last. Makes a round once all three are drawn.
fn enters_late<R: Wait>(rt: &R, turn: &Turn<Rounds>, pass: &mut Pass<Rounds>) -> bool
    requires turn { IsPassOf turn.now pass.old × IsAway pass.old }
    ensures turn { IsPassOf turn.now pass.new × IsAway pass.new }
{
    let in_time = sees_tickets(turn, 2 - (pass.number() % 3) as u64);
    let mut rounds = turn.take(rt, pass);
    let all_wait = sees_tickets(turn, 3);
    let pushed = rounds.made.push((pass.number(), 0));
    turn.give(pass, rounds);
    in_time && all_wait && pushed.is_ok()
}

// Three threads, each with a pass, are served in the order in which they drew their tickets, which is not that of their
// numbers.
#[test]
fn tickets_are_served_in_order(rt: HostRuntime) -> Result<(), Fail> {
    let rounds = Rounds {
        first: 1,
        made: Vec::new(rt.alloc()),
    };
    let (turn, mut passes) = Turn::make_all(rt.alloc(), rounds, 3).map_err(|back| back.1)?;
    for_each_mut(
        &rt,
        passes.as_mut_slice(),
        3,
        &|_, pass| {
            assert!(rt; enters_late(&rt, &turn, pass));
        },
    );
    let rounds = finish(turn, passes);
    assert_eq!(rt; rounds.made.as_slice(), [(2, 0), (1, 0), (0, 0)].as_slice());
    Ok(())
}
