//! The places of tasks in the order of their ids, so that the task of an id is found in few steps.
ghost use Rattle.std.specs.Prelude.{◌≡◌, IfOk, IsTrue, position, length};
ghost use Rattle.std.specs.Cmp.Lexicographic.{slice_cmp};
ghost use Rattle.std.specs.List.Sorted.{IsBinarySearchResult, IsSearchInRange};
ghost use Rattle.std.specs.Ordering.{nat_cmp};
ghost use Rattle.lg_calls.specs.Tasks.{has_id, have_distinct_ids};
ghost use Rattle.lg_plain.specs.Index.{id_at, HasEach, HasRoom, IsIndexOf};

use lg_base::{NoMemory, TaskId};
use lg_calls::TaskRec;
use std::alloc::Global;
use std::cmp::Ordering;

/// The places of tasks, in the order of the tasks' ids.
#[derive(Drop)]
pub(crate) struct Index {
    pub places: Vec<usize>,
}

impl Index {
    /// Room for so many tasks.
    pub fn new(alloc: Global, count: usize) -> Result<Index, NoMemory>
        ensures { IfOk result (HasRoom count) }
    {
        let places = Vec::with_capacity(alloc, count)?;
        Ok(Index { places })
    }

    /// Makes the index of these tasks, for which there is room. It takes no memory.
    pub fn fill(&mut self, tasks: &[TaskRec])
        requires { HasRoom (length tasks.now) self.old }
        ensures { IsIndexOf tasks.now self.new }
    {
        self.put_places(tasks.len());
        self.places
            .sort_unstable_by(|one, other| compare_at(tasks, *one, *other));
    }

    // Puts the places of so many tasks.
    #[tactic(auto, using(crate::proofs::IndexLemmas::has_each_none))]
    fn put_places(&mut self, count: usize)
        requires { HasRoom count self.old }
        ensures { HasEach count self.new.places.items }
    {
        for place in 0..count {
            self.places.push_reserved(place);
        }
    }

    /// The place of the task of an id, if there is one.
    pub fn place_of(&self, tasks: &[TaskRec], id: &TaskId) -> Option<usize>
        requires index { IsIndexOf tasks.now self.now }
        requires distinct { IsTrue (have_distinct_ids tasks.now) }
        ensures { result ≡ position (has_id id.now) tasks.now }
    {
        match self.search(tasks, id) {
            Ok(at) => Some(self.places[at]),
            Err(_) => None,
        }
    }

    // Where the place of the task of an id stands among the others, or where it would stand.
    fn search(&self, tasks: &[TaskRec], id: &TaskId) -> Result<usize, usize>
        ensures bound { IsSearchInRange result (length self.now.places.items) }
        ensures position { IsBinarySearchResult (λ place. slice_cmp nat_cmp (id_at tasks.now place) id.now) self.now.places.items result }
    {
        self.places
            .binary_search_by(|place| compare_with(tasks, *place, id))
    }
}

// The bytes of the id of the task of a place, and none where there is no task.
fn bytes_at(tasks: &[TaskRec], place: usize) -> &[u8]
    ensures { result.now ≡ id_at tasks.now place }
{
    match tasks.get(place) {
        Some(task) => task.id.bytes(),
        None => &[],
    }
}

// Which of two places has the first id in the order of their bytes.
fn compare_at(tasks: &[TaskRec], one: usize, other: usize) -> Ordering
    ensures { result ≡ slice_cmp nat_cmp (id_at tasks.now one) (id_at tasks.now other) }
{
    bytes_at(tasks, one).cmp(&bytes_at(tasks, other))
}

// How the id of the task of a place stands to an id in the order of their bytes.
fn compare_with(tasks: &[TaskRec], place: usize, id: &TaskId) -> Ordering
    ensures { result ≡ slice_cmp nat_cmp (id_at tasks.now place) id.now }
{
    bytes_at(tasks, place).cmp(&id.bytes())
}
