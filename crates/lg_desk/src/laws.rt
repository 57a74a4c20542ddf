//! What the definitions of a journal and its replay come to.
ghost use Rattle.std.specs.Prelude.{◌≡◌, List, [], ◌∷◌, ◌++◌, ℕ, map, true};
ghost use Rattle.lg_calls.specs.declared.state.State.{State};
ghost use Rattle.lg_calls.specs.Outcome.{full};
ghost use Rattle.lg_calls.specs.Step.{step};
ghost use Rattle.lg_desk.specs.declared.journal.Entry.{Entry};
ghost use Rattle.lg_desk.specs.Answers.{outcome_behind};
ghost use Rattle.lg_desk.specs.Journal.{is_over};
ghost use Rattle.lg_desk.specs.Replay.{replay, answered, made_by};
ghost use Rattle.lg_turn.specs.Passes.{number_of, seen_by, own_of};
ghost use Rattle.lg_turn.specs.Views.{BeginsWith, of_pass};

use crate::kept::Kept;
use lg_calls::Engine;
use lg_calls::laws::a_full_scheduler_stays;
use lg_turn::Pass;

/// One entry more is one step more on the state that those before it left, and its answer is what that step comes to.
pub fn one_step_each()
    ensures { (base : State) (journal : List Entry) (e : Entry)
        → (replay base (journal ++ e ∷ []) ≡ (step (replay base journal) e.now.0 e.request).0)
        × (answered base (journal ++ e ∷ []) ≡ answered base journal
        ++ record { entry = e; outcome = (step (replay base journal) e.now.0 e.request).1; over = is_over (journal ++ e ∷ []) } ∷ []) }
{}

/// The answers of a journal are to its entries, each once, in order.
pub fn each_is_answered()
    ensures { (base : State) (journal : List Entry) → map (λ a. a.entry) (answered base journal) ≡ journal }
{}

/// Behind an entry that finds the scheduler full the state is as before.
pub fn a_full_scheduler_stays_behind_its_entry()
    ensures { (base : State) (journal : List Entry) (e : Entry) (tasks : ℕ) → outcome_behind base journal e ≡ full tasks
        → replay base (journal ++ e ∷ []) ≡ replay base journal }
{
    a_full_scheduler_stays();
}

/// Where a pass enters a call behind a journal that begins with what it had seen, and in which nothing else is of its number,
/// its answers so far stay as they were, and the one to this call stands behind them.
pub fn a_pass_is_answered_in_its_order()
    ensures { (base : State) (n : ℕ) (seen found : List Entry) (e : Entry) → BeginsWith found seen
        → of_pass (λ x. x.pass) n found ≡ of_pass (λ x. x.pass) n seen → e.pass ≡ n
        → made_by n (answered base (found ++ e ∷ [])) ≡ made_by n (answered base seen)
        ++ record { entry = e; outcome = outcome_behind base found e; over = is_over (found ++ e ∷ []) } ∷ [] }
{}

/// The entries of a pass are those of its number that it has seen.
pub fn own_entries_are_seen<E: Engine>(pass: &Pass<Kept<E>>)
    ensures { of_pass (λ e. e.pass) (number_of pass.now) (seen_by pass.now) ≡ own_of pass.now }
{}

/// A journal that is over stays over.
pub fn over_stays()
    ensures { (journal more : List Entry) → is_over journal ≡ true → is_over (journal ++ more) ≡ true }
{}
