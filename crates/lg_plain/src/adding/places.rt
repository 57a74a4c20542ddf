//! Lists in the order of bytes, in which each key stands once.
ghost use Rattle.std.specs.Prelude.{◌≡◌, List, ℕ, not, OnErr, OnOk, position};
ghost use Rattle.std.specs.BTreeSet.{replace_key};
ghost use Rattle.std.specs.Ordering.{nat_cmp, is_gt};
ghost use Rattle.std.specs.Cmp.Lexicographic.{slice_cmp};

use lg_base::{Name, NoMemory, TaskId, WorkerId};
use lg_calls::{Info, WorkerRec};
use std::cmp::Ordering;

/// What stands in the order of some bytes.
pub(crate) trait Placed: Drop {
    ghost bytes_of: { Self → List ℕ };

    /// Which of two is first.
    fn compare(&self, other: &Self) -> Ordering
        ensures { result ≡ slice_cmp nat_cmp (bytes_of self.now) (bytes_of other.now) };
}

impl Placed for TaskId {
    ghost bytes_of = { λ id. id };

    fn compare(&self, other: &TaskId) -> Ordering {
        self.cmp(other)
    }
}

impl Placed for WorkerId {
    ghost bytes_of = { λ id. id };

    fn compare(&self, other: &WorkerId) -> Ordering {
        self.cmp(other)
    }
}

impl Placed for WorkerRec {
    ghost bytes_of = { λ worker. worker.id };

    fn compare(&self, other: &WorkerRec) -> Ordering {
        self.id.cmp(&other.id)
    }
}

impl Placed for (Name, Info) {
    ghost bytes_of = { λ pair. pair.0 };

    fn compare(&self, other: &(Name, Info)) -> Ordering {
        self.0.cmp(&other.0)
    }
}

// The place of the first that isn't before an item.
fn place_of<T: Placed>(items: &[T], item: &T) -> Option<usize>
    ensures { result ≡ position (λ other. not (is_gt (slice_cmp nat_cmp (T.bytes_of item.now) (T.bytes_of other)))) items.now }
{
    items.iter().position(|other| !item.compare(other).is_gt())
}

/// Puts an item at its place in the order, where it replaces one that is there. Where there is no memory nothing changes.
pub(crate) fn put<T: Placed>(items: &mut Vec<T>, item: T) -> Result<(), NoMemory>
    ensures err { OnErr result (items.new.items ≡ items.old.items) }
    ensures ok { OnOk result (items.new.items ≡ replace_key (λ one other. slice_cmp nat_cmp (T.bytes_of one) (T.bytes_of other)) items.old.items item) }
{
    let Some(place) = place_of(items.as_slice(), &item) else {
        return Ok(items.push(item)?);
    };
    if item.compare(&items[place]).is_eq() {
        items[place] = item;
        Ok(())
    } else {
        Ok(items.insert(place, item)?)
    }
}
