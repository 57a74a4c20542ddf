//! What fits beside what is taken.
ghost use Rattle.std.specs.Prelude.{◌≡◌};
ghost use Rattle.lg_calls.specs.Work.Fits.{fits};
ghost use Rattle.lg_work.specs.Sums.{sum_of};

use crate::sums::Sums;
use lg_base::Amounts;
use lg_calls::{State, TaskRec};

/// Whether the resources of a task fit beside what is taken, within the limits of the state.
pub(crate) fn fits_beside(state: &State, taken: &Sums, task: &TaskRec) -> bool
    ensures { result ≡ fits state.now.limits (sum_of taken.now) task.now.resources }
{
    fits(&state.limits, taken, &task.resources)
}

// Whether what is needed fits beside what is taken: of each name together at most the limit, which is 1 where none is set.
fn fits(limits: &Amounts, taken: &Sums, needs: &Amounts) -> bool
    ensures { result ≡ fits limits.now (sum_of taken.now) needs.now }
{
    needs.fits(|name| taken.get(name), limits)
}
