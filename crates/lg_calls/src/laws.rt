//! What the definitions come to, for those who call and for those who follow a task through the steps.
ghost use Rattle.std.specs.Prelude.{◌≡◌, ◌≢◌, false, ◌||◌, ℕ, List, All, Contains, Some, None, map, Bool, IsTrue, Option, option_and_then, ◌≤◌, Err, codes};
ghost use Rattle.serde_json.specs.Data.{Members};
ghost use Rattle.lg_json.specs.Fields.{text_in};
ghost use Rattle.lg_calls.specs.declared.methods.get_work.GetWork.{GetWork};
ghost use Rattle.lg_calls.specs.declared.refusal.Refusal.{Refusal};
ghost use Rattle.lg_calls.specs.declared.request.Request.{Request};
ghost use Rattle.lg_calls.specs.declared.request.Request.TheVariants.{Stop};
ghost use Rattle.lg_calls.specs.declared.state.State.{State};
ghost use Rattle.lg_calls.specs.declared.status.Status.TheVariants.{Pending};
ghost use Rattle.lg_calls.specs.Outcome.{full};
ghost use Rattle.lg_calls.specs.Step.{begun, step};
ghost use Rattle.lg_calls.specs.Laws.{KeepsIds, ChangesOne, AddsOne, found_where_kept, IdsStayDistinct, NumbersKeepRising};
ghost use Rattle.lg_calls.specs.Look.{tasks_at, task_at, place_of};
ghost use Rattle.lg_calls.specs.Method.{methods, row_named};
ghost use Rattle.lg_calls.specs.Methods.UpdateResource.{update_resource};
ghost use Rattle.lg_calls.specs.Reading.{needed};
ghost use Rattle.lg_calls.specs.Task.{Task};
ghost use Rattle.lg_calls.specs.Tasks.{have_distinct_ids, have_rising_numbers, find_task, keep_tasks};
ghost use Rattle.lg_calls.specs.Work.Candidate.{first_candidate};
ghost use Rattle.lg_calls.specs.Work.Laws.{StandByRank, HasNoCandidate, IsFirst};
ghost use Rattle.lg_calls.specs.Work.Rank.{outranks, by_rank};
ghost use Rattle.lg_calls.specs.Work.Walk.{has_no_resources, is_trivial, walk};

/// Each name of the table is of its own method, so that the names differ, and any other text is of none.
pub fn names_are_of_one_method()
    ensures own { All (λ row. row_named row.0 ≡ Some row) methods }
    ensures others { (name : List ℕ) → ¬ Contains (map (λ row. row.0) methods) name → row_named name ≡ None }
{}

/// Changing the task of an id leaves every other task as it was.
pub fn changing_one_leaves_the_others()
    ensures { (id : List ℕ) (change : Task → Task) → KeepsIds change
        → (tasks : List Task) → ChangesOne id change tasks }
{}

/// A task that is put behind the others leaves them as they were.
pub fn adding_one_leaves_the_others()
    ensures { (task : Task) (tasks : List Task) → AddsOne task tasks }
{}

/// Where tasks are taken out, those that stay are found as before, and no others.
pub fn who_stays_is_found()
    ensures { (stays : Task → Bool) (id : List ℕ) (tasks : List Task) → IsTrue (have_distinct_ids tasks)
        → find_task id (keep_tasks stays tasks) ≡ found_where_kept stays (find_task id tasks) }
{}

/// Ids that differ still differ behind each of these changes.
pub fn ids_stay_distinct()
    ensures { (tasks : List Task) → IsTrue (have_distinct_ids tasks) → IdsStayDistinct tasks }
{}

/// Numbers that rise along the list still rise behind each of these changes.
pub fn numbers_keep_rising()
    ensures { (tasks : List Task) → IsTrue (have_rising_numbers tasks) → NumbersKeepRising tasks }
{}

/// What stands at the place of an id is the task that is found by the id.
pub fn who_is_found_stands_at_its_place()
    ensures { (id : List ℕ) (places : List (Option Task))
        → option_and_then (task_at places) (place_of id places) ≡ find_task id (tasks_at places) }
{}

/// The moment of a state never goes back.
pub fn moments_never_go_back()
    ensures { (s : State) (now : ℕ) (request : Request) → s.moment.0 ≤ (step s now request).0.moment.0 }
{}

/// A scheduler that is full stays as it was, its moment included.
pub fn a_full_scheduler_stays()
    ensures { (s : State) (now : ℕ) (request : Request) (tasks : ℕ)
        → (step s now request).1 ≡ full tasks → (step s now request).0 ≡ s }
{}

/// A stop moves the state on to its moment, with the pruning that is due, and does nothing else.
pub fn a_stop_does_nothing_else()
    ensures { (s : State) (now : ℕ) → (step s now Stop).0 ≡ begun s now Stop }
{}

/// A limit is refused by its resource before its amount is looked at.
pub fn the_resource_comes_first()
    ensures { (fields : Members) (refusal : Refusal) → needed text_in (codes "resource") fields ≡ Err refusal
        → update_resource fields ≡ Err refusal }
{}

/// Of two tasks with different numbers exactly one outranks the other, and who outranks a task outranks each that it outranks.
pub fn rank_is_an_order()
    ensures one_way { (one other : Task) → IsTrue (outranks one other) → outranks other one ≡ false }
    ensures on { (one other third : Task) → IsTrue (outranks one other) → IsTrue (outranks other third) → IsTrue (outranks one third) }
    ensures either { (one other : Task) → one.number ≢ other.number → IsTrue (outranks one other || outranks other one) }
{}

/// By rank stand the same tasks, where their numbers rise as in each state, and each before those that it outranks.
pub fn who_walks_by_rank()
    ensures { (tasks : List Task) → IsTrue (have_rising_numbers tasks) → StandByRank tasks (by_rank tasks) }
{}

/// Whoever waits among those that a trivial worker's search goes over needs no resources.
pub fn a_trivial_walk_needs_nothing()
    ensures { (worker : List ℕ) (s : State) → IsTrue (is_trivial worker s)
        → (task : Task) → Contains (walk worker s) task → task.status ≡ Pending → IsTrue (has_no_resources task) }
{}

/// The task that is chosen stands in the walk, can be given, and is the first that can; where none is chosen none can.
pub fn the_first_is_given()
    ensures given { (ask : GetWork) (s : State) (task : Task) → first_candidate ask s ≡ Some task → IsFirst ask s task }
    ensures none { (ask : GetWork) (s : State) → first_candidate ask s ≡ None → HasNoCandidate ask s (walk ask.worker s) }
{}
