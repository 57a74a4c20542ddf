//! How a desk is made, with its passes.
ghost use Rattle.std.specs.Prelude.{◌≡◌, ◌≤◌, map, All, IfOk, IfErr};
ghost use Rattle.std.specs.List.{range_with_len};
ghost use Rattle.lg_turn.specs.Passes.{number_of, IsNew};
ghost use Rattle.lg_desk.specs.Desks.{desk_base, desk_callers, desk_passes, IsAt};

use super::Desk;
use crate::kept::Kept;
use lg_base::NoMemory;
use lg_calls::Engine;
use lg_turn::{Pass, Turn};
use std::alloc::Global;

// The engine again, where no desk was made over it.
fn engine_of<E: Engine>(kept: Kept<E>) -> E
    ensures { result ≡ kept.engine }
{
    let (engine, _journal) = kept.finish();
    engine
}

impl<E: Engine> Desk<E> {
    /// Makes a desk over an engine, with one pass, whose number is 0, and room for as many passes as there are callers:
    /// from 1 to 65. The journal is empty, and its base is the state of the engine. The pass has seen and made nothing.
    /// Where memory runs out the engine comes back.
    pub fn make(
        alloc: Global,
        engine: E,
        callers: u32,
    ) -> Result<(Desk<E>, Pass<Kept<E>>), (E, NoMemory)>
        requires callers { (1 ≤ callers) × (callers ≤ 65) }
        ensures callers { IfOk result (λ made. desk_callers made.0 ≡ callers) }
        ensures one { IfOk result (λ made. desk_passes made.0 ≡ 1) }
        ensures base { IfOk result (λ made. desk_base made.0 ≡ E.state engine) }
        ensures pass { IfOk result (λ made. IsAt made.0 made.1 × (number_of made.1 ≡ 0)) }
        ensures new { IfOk result (λ made. IsNew (E.state engine) made.1) }
        ensures err { IfErr result (λ back. back.0 ≡ engine) }
    {
        let kept = Kept::begin(alloc, engine)?;
        match Turn::make(alloc, kept, callers) {
            Ok((turn, pass)) => Ok((Desk { turn }, pass)),
            Err((kept, fault)) => Err((engine_of(kept), fault)),
        }
    }

    /// Makes a desk over an engine, with as many passes as there are callers: from 1 to 65, with the numbers from 0 on.
    /// The journal is empty, and its base is the state of the engine. Each pass has seen and made nothing. Where memory
    /// runs out the engine comes back.
    pub fn make_all(
        alloc: Global,
        engine: E,
        callers: u32,
    ) -> Result<(Desk<E>, Vec<Pass<Kept<E>>>), (E, NoMemory)>
        requires callers { (1 ≤ callers) × (callers ≤ 65) }
        ensures callers { IfOk result (λ made. desk_callers made.0 ≡ callers) }
        ensures all { IfOk result (λ made. desk_passes made.0 ≡ callers) }
        ensures base { IfOk result (λ made. desk_base made.0 ≡ E.state engine) }
        ensures numbers { IfOk result (λ made. map number_of made.1.items ≡ range_with_len 0 callers) }
        ensures passes { IfOk result (λ made. All (IsAt made.0) made.1.items) }
        ensures new { IfOk result (λ made. All (IsNew (E.state engine)) made.1.items) }
        ensures err { IfErr result (λ back. back.0 ≡ engine) }
    {
        let kept = Kept::begin(alloc, engine)?;
        match Turn::make_all(alloc, kept, callers) {
            Ok((turn, passes)) => Ok((Desk { turn }, passes)),
            Err((kept, fault)) => Err((engine_of(kept), fault)),
        }
    }
}
