//! Lists that rise, and lists in which nothing stands twice.
ghost use Rattle.std.specs.Prelude.{◌≡◌, IfOk, map};
ghost use Rattle.lg_calls.specs.Order.{all_pairs, are_distinct};

use lg_base::{Moment, Name, NoMemory, TaskId, WorkerId};
use lg_calls::{BatcherRec, TaskRec, WorkerRec};
use std::alloc::Global;
use std::collections::BTreeSet;

/// What stands in a list that rises.
pub(crate) trait Rising {
    ghost use Rattle.std.specs.Prelude.{Bool, true};

    ghost before: { Self → Self → Bool };

    /// Whether this may stand before another.
    fn is_before(&self, other: &Self) -> bool
        ensures { result ≡ before self.now other.now };

    ghost transitive: { (a b c : Self) → before a b ≡ true → before b c ≡ true → before a c ≡ true };
}

/// Whether each element may stand before each later one.
pub(crate) fn rise<T: Rising>(items: &[T]) -> bool
    ensures { result ≡ all_pairs T.before items.now }
{
    let [first, others @ ..] = items else {
        return true;
    };
    let mut last = first;
    for item in others {
        if !last.is_before(item) {
            return false;
        }
        last = item;
    }
    true
}

/// By the names' bytes.
impl<X> Rising for (Name, X) {
    ghost use Rattle.lg_calls.specs.Order.{is_before};
    ghost use Rattle.lg_snapshot.specs.Rising.{before-before};

    ghost before = { λ one other. is_before one.0 other.0 };

    ghost transitive = { λ a b c. before-before a.0 b.0 c.0 };

    fn is_before(&self, other: &(Name, X)) -> bool {
        self.0.cmp(&other.0).is_lt()
    }
}

/// By their bytes.
impl Rising for TaskId {
    ghost use Rattle.lg_calls.specs.Order.{is_before};
    ghost use Rattle.lg_snapshot.specs.Rising.{before-before};

    ghost before = { is_before };

    ghost transitive = { before-before };

    fn is_before(&self, other: &TaskId) -> bool {
        self.cmp(other).is_lt()
    }
}

/// By their bytes.
impl Rising for WorkerId {
    ghost use Rattle.lg_calls.specs.Order.{is_before};
    ghost use Rattle.lg_snapshot.specs.Rising.{before-before};

    ghost before = { is_before };

    ghost transitive = { before-before };

    fn is_before(&self, other: &WorkerId) -> bool {
        self.cmp(other).is_lt()
    }
}

/// By the numbers.
impl Rising for TaskRec {
    ghost use Rattle.lg_snapshot.specs.Validity.{number_is_before};
    ghost use Rattle.lg_snapshot.specs.Rising.{numbers-before};

    ghost before = { number_is_before };

    ghost transitive = { λ a b c. numbers-before a.number b.number c.number };

    fn is_before(&self, other: &TaskRec) -> bool {
        self.number < other.number
    }
}

/// By the ids.
impl Rising for WorkerRec {
    ghost use Rattle.lg_snapshot.specs.Validity.{worker_is_before};
    ghost use Rattle.lg_snapshot.specs.Rising.{before-before};

    ghost before = { worker_is_before };

    ghost transitive = { λ a b c. before-before a.id b.id c.id };

    fn is_before(&self, other: &WorkerRec) -> bool {
        self.id.cmp(&other.id).is_lt()
    }
}

/// By the workers, and then by the families.
impl Rising for BatcherRec {
    ghost use Rattle.lg_calls.specs.Valid.{batcher_is_before};
    ghost use Rattle.lg_snapshot.specs.Rising.{batchers-before};

    ghost before = { batcher_is_before };

    ghost transitive = { batchers-before };

    fn is_before(&self, other: &BatcherRec) -> bool {
        let by_worker = self.worker.cmp(&other.worker);
        by_worker.then(self.family.cmp(&other.family)).is_lt()
    }
}

/// Moments don't fall.
impl Rising for Moment {
    ghost use Rattle.lg_snapshot.specs.Validity.{does_not_fall};
    ghost use Rattle.lg_snapshot.specs.Rising.{moments-before};

    ghost before = { does_not_fall };

    ghost transitive = { λ a b c. moments-before a.0 b.0 c.0 };

    fn is_before(&self, other: &Moment) -> bool {
        self.0 <= other.0
    }
}

/// What has an id.
pub(crate) trait Named {
    ghost use Rattle.std.specs.Prelude.{List, ℕ};

    ghost id: { Self → List ℕ };

    /// The id's bytes.
    fn id(&self) -> &[u8]
        ensures { result.now ≡ id self.now };
}

impl Named for TaskRec {
    ghost id = { λ task. task.id };

    fn id(&self) -> &[u8] {
        self.id.bytes()
    }
}

impl Named for WorkerId {
    ghost id = { λ id. id };

    fn id(&self) -> &[u8] {
        self.bytes()
    }
}

/// Whether no id stands twice. Each is looked up among those before it, in the order of bytes.
pub(crate) fn are_distinct<T: Named>(alloc: Global, items: &[T]) -> Result<bool, NoMemory>
    ensures { IfOk result (λ distinct. distinct ≡ are_distinct (map T.id items.now)) }
{
    let mut seen = BTreeSet::new(alloc);
    for item in items {
        if !seen.insert(item.id())? {
            return Ok(false);
        }
    }
    Ok(true)
}
