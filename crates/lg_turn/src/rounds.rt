//! An example of what a turn keeps, with callers whose contracts stand on those of the turn alone.
ghost use Rattle.std.specs.Prelude.{◌≡◌, ◌++◌, [], ◌∷◌, length, All, OnOk, OnErr};
ghost use Rattle.lg_turn.specs.Views.{BeginsWith};
ghost use Rattle.lg_turn.specs.Passes.{number_of, seen_by, own_of, IsAway, IsPassOf, IsSamePass, callers_of};

use crate::{Keeps, Pass, Turn};
use std::alloc::AllocError;
use std::sync::Wait;

/// Rounds, each with the number of the pass that made it and a count of its own.
#[derive(Drop)]
pub struct Rounds {
    pub first: u32,
    pub made: Vec<(u32, u32)>,
}

impl Keeps for Rounds {
    type Item = (u32, u32);

    type Base = u32;

    ghost items = { λ rounds. rounds.made.items };

    ghost number = { λ round. round.0 };

    ghost base = { λ rounds. rounds.first };
}

/// Takes the turn, makes one round, and gives the turn back. Where memory runs out no round is made.
pub fn enter<R: Wait>(
    rt: &R,
    turn: &Turn<Rounds>,
    pass: &mut Pass<Rounds>,
    count: u32,
) -> Result<(), AllocError>
    requires turn { IsPassOf turn.now pass.old }
    requires away { IsAway pass.old }
    ensures turn { IsPassOf turn.now pass.new × IsAway pass.new × IsSamePass pass.old pass.new }
    ensures seen { BeginsWith (seen_by pass.new) (seen_by pass.old) }
    ensures ok { OnOk result (own_of pass.new ≡ own_of pass.old ++ (number_of pass.old, count) ∷ []) }
    ensures err { OnErr result (own_of pass.new ≡ own_of pass.old) }
{
    let mut rounds = turn.take(rt, pass);
    let pushed = rounds.made.push((pass.number(), count));
    turn.give(pass, rounds);
    pushed?;
    Ok(())
}

/// Ends the turn. The rounds begin with those that each pass has seen.
pub fn finish(turn: Turn<Rounds>, passes: Vec<Pass<Rounds>>) -> Rounds
    requires all { length passes.items ≡ callers_of turn }
    requires passes { All (λ p. IsPassOf turn p × IsAway p) passes.items }
    ensures { All (λ p. BeginsWith result.made.items (seen_by p)) passes.items }
{
    let rounds = turn.close_all(passes);
    rounds
}
