//! A walk from task to task that looks at each place at most once.
ghost use Rattle.std.specs.Prelude.{◌≡◌, ◌+◌, ◌<◌, ◌≤◌, ◌++◌, ◌∷◌, [], length, not, count_by, IfOk, IsSome, IfNone, option_to_list, true, false, slice_set, vec_len, vec_capacity};

use lg_base::NoMemory;
use std::alloc::Global;

/// A walk, with all the memory that it takes: a mark for each place, and the places that are still to be looked at. Each
/// place is put there once, when it is marked.
#[derive(Drop)]
pub(crate) struct Walk {
    pub marks: Vec<bool>,
    pub places: Vec<u32>,
    pub ghost has_room: { vec_len marks ≤ vec_capacity places },
    pub ghost each_once: { count_by not marks.items + vec_len places ≤ vec_len marks },
}

impl Walk {
    ghost use Rattle.lg_views.specs.Walking.{IsFresh, is_marked, rest_of};

    /// A walk over as many places that hasn't begun.
    pub fn new(alloc: Global, count: u32) -> Result<Walk, NoMemory>
        ensures { IfOk result (IsFresh count) }
    {
        let mut marks = Vec::new(alloc);
        marks.resize(count as usize, false)?;
        let places = Vec::with_capacity(alloc, count as usize)?;
        Ok(Walk { marks, places })
    }

    /// Takes out a place to look at, if one is left.
    pub fn take(&mut self) -> Option<u32>
        ensures marks { self.new.marks.items ≡ self.old.marks.items }
        ensures places { self.old.places.items ≡ self.new.places.items ++ option_to_list result }
        ensures over { IfNone result (self.new.places.items ≡ []) }
        ensures rest { IsSome result → rest_of self.new < rest_of self.old }
    {
        self.places.pop()
    }

    /// Marks a place that isn't marked, and puts it to those that are still to be looked at.
    pub fn mark(&mut self, place: u32)
        requires known { place < length self.old.marks.items }
        requires unmarked { is_marked self.old place ≡ false }
        ensures marks { self.new.marks.items ≡ slice_set self.old.marks.items place true }
        ensures places { self.new.places.items ≡ self.old.places.items ++ place ∷ [] }
        ensures rest { rest_of self.new ≡ rest_of self.old }
    {
        self.marks[place as usize] = true;
        self.places.push_reserved(place);
    }
}
