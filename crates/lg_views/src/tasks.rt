//! The task of an id.
ghost use Rattle.std.specs.Prelude.{◌≡◌};
ghost use Rattle.std.specs.Option.{option_copied};
ghost use Rattle.lg_calls.specs.Look.{CanBeLookedAt};
ghost use Rattle.lg_calls.specs.Tasks.{find_task};

use lg_base::TaskId;
use lg_calls::{Look, TaskRec, laws};

/// The task of an id, if there is one. It takes no memory.
pub fn found<'a, K: Look>(state: &'a K, id: &TaskId) -> Option<&'a TaskRec>
    requires { CanBeLookedAt (K.state state.now) }
    ensures { option_copied result ≡ find_task id.now (K.state state.now).tasks }
{
    laws::who_is_found_stands_at_its_place();
    let place = state.find(id)?;
    state.at(place)
}
