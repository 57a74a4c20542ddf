ghost use Rattle.std.specs.Prelude.{IfOk};
ghost use Rattle.lg_turn.specs.Passes.{IsAway, IsPassOf};

use crate::rounds::{Rounds, enter, finish};
use crate::{Pass, Turn, TurnFault};
use lg_base::NoMemory;
use std::alloc::{AllocError, Global};
use std::sync::Wait;
use std::test::Fail;
use std::thread::for_each_mut;

// The numbers of the passes that make_all gives, and what close_all answers where none took the turn.
#[test]
fn passes_have_the_numbers_from_0_on(rt: HostRuntime) -> Result<(), Fail> {
    let rounds = Rounds {
        first: 7,
        made: Vec::new(rt.alloc()),
    };
    let (turn, passes) = Turn::make_all(rt.alloc(), rounds, 3).map_err(|back| back.1)?;
    let numbers = [passes[0].number(), passes[1].number(), passes[2].number()];
    let rounds = finish(turn, passes);
    assert_eq!(rt; numbers, [0, 1, 2]);
    assert_eq!(rt; (rounds.first, rounds.made.len()), (7, 0));
    Ok(())
}

// Makes so many rounds, with the counts from 0 on. True where there was memory for all of them.
fn enter_all<R: Wait>(rt: &R, turn: &Turn<Rounds>, pass: &mut Pass<Rounds>, times: u32) -> bool
    requires turn { IsPassOf turn.now pass.old × IsAway pass.old }
    ensures turn { IsPassOf turn.now pass.new × IsAway pass.new }
{
    let mut all = true;
    for count in 0..times {
        if enter(rt, turn, pass, count).is_err() {
            all = false;
        }
    }
    all
}

// The counts of one pass, in the order of the list.
fn counts_of(alloc: Global, rounds: &Rounds, number: u32) -> Result<Vec<u32>, AllocError> {
    rounds
        .made
        .iter()
        .filter(|round| round.0 == number)
        .map(|round| round.1)
        .collect(alloc)
}

// Two threads take and give a hundred times each, with one entry each. The list has the entries of both, those of each
// thread in its order.
#[test]
fn two_threads_enter_a_hundred_rounds_each(rt: HostRuntime) -> Result<(), Fail> {
    let rounds = Rounds {
        first: 1,
        made: Vec::new(rt.alloc()),
    };
    let (turn, mut passes) = Turn::make_all(rt.alloc(), rounds, 2).map_err(|back| back.1)?;
    for_each_mut(
        &rt,
        passes.as_mut_slice(),
        2,
        &|_, pass| {
            assert!(rt; enter_all(&rt, &turn, pass, 100));
        },
    );
    let rounds = finish(turn, passes);
    let hundred: Vec<u32> = (0..100).collect(rt.alloc())?;
    assert_eq!(rt; rounds.made.len(), 200);
    for number in 0..2 {
        assert_eq!(rt;
            counts_of(rt.alloc(), &rounds, number)?,
            hundred,
            "{number}"
        );
    }
    Ok(())
}

// Eight threads take and give 5,000 times each, and all of them end. The list has the entries of all, those of each
// thread in its order.
#[test]
fn eight_threads_of_five_thousand_rounds_end(rt: HostRuntime) -> Result<(), Fail> {
    let rounds = Rounds {
        first: 1,
        made: Vec::new(rt.alloc()),
    };
    let (turn, mut passes) = Turn::make_all(rt.alloc(), rounds, 8).map_err(|back| back.1)?;
    for_each_mut(
        &rt,
        passes.as_mut_slice(),
        8,
        &|_, pass| {
            assert!(rt; enter_all(&rt, &turn, pass, 5_000));
        },
    );
    let rounds = finish(turn, passes);
    let all: Vec<u32> = (0..5_000).collect(rt.alloc())?;
    assert_eq!(rt; rounds.made.len(), 40_000);
    for number in 0..8 {
        assert_eq!(rt; counts_of(rt.alloc(), &rounds, number)?, all, "{number}");
    }
    Ok(())
}

// A turn for two callers, with one pass.
fn turn_of_two(alloc: Global) -> Result<(Turn<Rounds>, Pass<Rounds>), NoMemory>
    ensures { IfOk result (λ made. IsPassOf made.0 made.1 × IsAway made.1) }
{
    let rounds = Rounds {
        first: 1,
        made: Vec::new(alloc),
    };
    match Turn::make(alloc, rounds, 2) {
        Ok(made) => Ok(made),
        Err((_, fault)) => Err(fault),
    }
}

// Two threads, one of them with a pass that was split off the other's, take and give a hundred times each. After the
// passes are joined the turn ends, and the list has the entries of both, those of each thread in its order.
#[test]
fn a_split_pass_enters_a_hundred_rounds_too(rt: HostRuntime) -> Result<(), Fail> {
    let (turn, mut first) = turn_of_two(rt.alloc())?;
    let mut passes = Vec::with_capacity(rt.alloc(), 2)?;
    let second = turn.split(&mut first)?;
    passes.push_reserved(first);
    passes.push_reserved(second);
    for_each_mut(
        &rt,
        passes.as_mut_slice(),
        2,
        &|_, pass| {
            assert!(rt; enter_all(&rt, &turn, pass, 100));
        },
    );
    let Some(second) = passes.pop() else {
        panic!(rt; "no second pass")
    };
    let Some(mut first) = passes.pop() else {
        panic!(rt; "no first pass")
    };
    turn.join(&mut first, second);
    let Ok(rounds) = turn.close(first) else {
        panic!(rt; "another pass was out")
    };
    let hundred: Vec<u32> = (0..100).collect(rt.alloc())?;
    assert_eq!(rt; rounds.made.len(), 200);
    for number in 0..2 {
        assert_eq!(rt;
            counts_of(rt.alloc(), &rounds, number)?,
            hundred,
            "{number}"
        );
    }
    Ok(())
}

// A third pass is refused, and so is the end while two are out. A number that was drawn in vain is not used again.
#[test]
fn a_turn_of_two_has_two_passes_at_most(rt: HostRuntime) -> Result<(), Fail> {
    let (turn, mut first) = turn_of_two(rt.alloc())?;
    let second = turn.split(&mut first)?;
    let third = turn.split(&mut first);
    assert_eq!(rt; (first.number(), second.number()), (0, 1));
    assert_eq!(rt; third.err(), Some(TurnFault::Many));
    let Err((turn, mut first)) = turn.close(first) else {
        panic!(rt; "a pass was out")
    };
    turn.join(&mut first, second);
    let fourth = turn.split(&mut first)?;
    assert_eq!(rt; fourth.number(), 3);
    turn.join(&mut first, fourth);
    assert!(rt; turn.close(first).is_ok());
    Ok(())
}

// The one pass of one caller isn't split, and the turn ends all the same.
#[test]
fn a_turn_of_one_ends_behind_refused_splits(rt: HostRuntime) -> Result<(), Fail> {
    let rounds = Rounds {
        first: 7,
        made: Vec::new(rt.alloc()),
    };
    let (turn, mut only) = Turn::make(rt.alloc(), rounds, 1).map_err(|back| back.1)?;
    let refused = turn.split(&mut only);
    let again = turn.split(&mut only);
    assert_eq!(rt; refused.err(), Some(TurnFault::Many));
    assert_eq!(rt; again.err(), Some(TurnFault::Many));
    assert!(rt; turn.close(only).is_ok());
    Ok(())
}

// Where all callers have a pass from the start none is split.
#[test]
fn passes_of_all_callers_are_not_split(rt: HostRuntime) -> Result<(), Fail> {
    let rounds = Rounds {
        first: 7,
        made: Vec::new(rt.alloc()),
    };
    let (turn, mut passes) = Turn::make_all(rt.alloc(), rounds, 3).map_err(|back| back.1)?;
    let refused = turn.split(&mut passes[0]);
    assert_eq!(rt; refused.err(), Some(TurnFault::Many));
    assert_eq!(rt; finish(turn, passes).made.len(), 0);
    Ok(())
}

#[test]
fn faults_have_texts(rt: HostRuntime) -> Result<(), Fail> {
    let many = format!(in rt.alloc(); "{}", TurnFault::Many)?;
    let spent = format!(in rt.alloc(); "{}", TurnFault::Spent)?;
    assert_eq!(rt;
        many.as_str(),
        "as many passes are out as there are callers"
    );
    assert_eq!(rt; spent.as_str(), "no numbers of passes are left");
    Ok(())
}
