//! What follows for those who take a view.
ghost use Rattle.lg_calls.specs.declared.state.State.{State};
ghost use Rattle.lg_calls.specs.Valid.{IsValidState};
ghost use Rattle.lg_views.specs.Listed.{CanBeListed};

/// Each valid state can be listed.
pub fn valid_states_can_be_listed()
    ensures { (s : State) → IsValidState s → CanBeListed s }
{}
