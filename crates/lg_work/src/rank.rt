//! Tasks by rank.
ghost use Rattle.std.specs.Prelude.{◌≡◌, IfOk, IsTrue};
ghost use Rattle.lg_calls.specs.Tasks.{have_rising_numbers};
ghost use Rattle.lg_calls.specs.Work.Rank.{rank_cmp, by_rank};
ghost use Rattle.lg_views.specs.Lent.{lent};

use lg_base::NoMemory;
use lg_calls::{TaskRec, laws};
use std::cmp::Ordering;

/// Which of two tasks comes first: the greater priority, then the earlier moment at which a task was added, then the lower
/// number.
pub(crate) fn rank(one: &TaskRec, other: &TaskRec) -> Ordering
    ensures { result ≡ rank_cmp one.now other.now }
{
    other
        .priority
        .cmp(&one.priority)
        .then(one.added.0.cmp(&other.added.0))
        .then(one.number.cmp(&other.number))
}

/// Tasks whose numbers rise, in the order of their rank. Refused only where there is no memory.
pub(crate) fn by_rank(tasks: Vec<&TaskRec>) -> Result<Vec<&TaskRec>, NoMemory>
    requires { IsTrue (have_rising_numbers (lent tasks.items)) }
    ensures { IfOk result (λ ranked. lent ranked.items ≡ by_rank (lent tasks.entry.items)) }
{
    laws::rank_is_an_order();
    laws::who_walks_by_rank();
    let mut ranked = tasks;
    ranked.sort_by(|one, other| rank(one, other))?;
    Ok(ranked)
}
