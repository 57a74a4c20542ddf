//! The limits of resources are set.
ghost use Rattle.std.specs.Prelude.{◌≡◌, fold, IfOk, IsTrue};
ghost use Rattle.std.specs.FinMap.{entries, insert};
ghost use Rattle.lg_json.specs.Tree.{null};
ghost use Rattle.lg_calls.specs.Methods.UpdateResource.{limit_set, update_resource_in_range};
ghost use Rattle.lg_calls.specs.Methods.UpdateResources.{limits_set};
ghost use Rattle.lg_calls.specs.Outcome.{replied};
ghost use Rattle.lg_plain.specs.Requests.{Comes};

use lg_base::{Amounts, NoMemory};
use lg_calls::{Reply, State, UpdateResource, UpdateResources};
use lg_json::Out;

/// Sets a limit; one below 0 isn't set.
pub(super) fn set_limit(state: &mut State, ask: &UpdateResource) -> Result<Reply, NoMemory>
    requires { IsTrue (update_resource_in_range ask.now) }
    ensures { Comes state.old (limit_set state.old ask.now.resource ask.now.amount) state.new result }
{
    match u32::try_from(ask.amount) {
        Ok(amount) => {
            state.limits.put(ask.resource.clone()?, amount)?;
            Ok(Reply(Out::Truth(true)))
        }
        Err(_) => Ok(Reply(Out::Truth(false))),
    }
}

/// Sets limits, and leaves the others.
pub(super) fn set_limits(state: &mut State, ask: &UpdateResources) -> Result<Reply, NoMemory>
    ensures { Comes state.old (limits_set ask.now.limits state.old, replied null) state.new result }
{
    state.limits = limits_with(&state.limits, &ask.limits)?;
    Ok(Reply(Out::Null))
}

// These limits, and over them others.
fn limits_with(known: &Amounts, more: &Amounts) -> Result<Amounts, NoMemory>
    ensures { IfOk result (λ limits. limits ≡ fold (λ so_far limit. insert so_far limit.0 limit.1) known.now (entries more.now)) }
{
    let mut limits = known.clone()?;
    for (name, amount) in more.entries() {
        limits.put(name.clone()?, *amount)?;
    }
    Ok(limits)
}
