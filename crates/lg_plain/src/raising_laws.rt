//! What raised priorities come to, for those who ask why a task is urgent.
ghost use Rattle.std.specs.Prelude.{◌≡◌, ℕ, ℤ, ◌≤ℤ◌, Some, None, List, map, All};
ghost use Rattle.std.specs.List.{Contains};
ghost use Rattle.lg_calls.specs.declared.state.State.{State};
ghost use Rattle.lg_calls.specs.Task.{Task};
ghost use Rattle.lg_calls.specs.Tasks.{ids_of, numbers_of, find_task};
ghost use Rattle.lg_calls.specs.Valid.{IsValidState};
ghost use Rattle.lg_calls.specs.Raising.{raised, with_priority, beside_priority, IsPath};

/// A task is raised exactly where a path of known tasks leads to it, however long, on which each is a dependency of the one
/// before, and each behind the first has a lower priority. Every other task stays as it is.
pub fn urgency_goes_along_paths()
    ensures led_to { (priority : ℤ) (id other : List ℕ) (tasks : List Task) (from to : Task)
        → find_task id tasks ≡ Some from → find_task other tasks ≡ Some to
        → (by : List Task) → All (Contains tasks) by → IsPath priority from by to
        → find_task other (raised priority id tasks) ≡ Some (with_priority priority to) }
    ensures not_led_to { (priority : ℤ) (id other : List ℕ) (tasks : List Task) (from to : Task)
        → find_task id tasks ≡ Some from → find_task other tasks ≡ Some to
        → ((by : List Task) → All (Contains tasks) by → ¬ IsPath priority from by to)
        → find_task other (raised priority id tasks) ≡ Some to }
    ensures from_nobody { (priority : ℤ) (id : List ℕ) (tasks : List Task) → find_task id tasks ≡ None
        → raised priority id tasks ≡ tasks }
{}

/// A task that has the priority, or a higher one, stays as it is. So the task from which its own priority goes on stays, also
/// where a cycle leads back to it.
pub fn who_is_as_urgent_stays()
    ensures { (priority : ℤ) (id other : List ℕ) (tasks : List Task) (task : Task)
        → find_task other tasks ≡ Some task → priority ≤ℤ task.priority
        → find_task other (raised priority id tasks) ≡ Some task }
{}

/// No priority falls.
pub fn no_priority_falls()
    ensures { (priority : ℤ) (id other : List ℕ) (tasks : List Task) (before after : Task)
        → find_task other tasks ≡ Some before → find_task other (raised priority id tasks) ≡ Some after
        → before.priority ≤ℤ after.priority }
{}

/// Each task stays at its place, with its id, its number and all but its priority.
pub fn all_but_priorities_stay()
    ensures beside { (priority : ℤ) (id : List ℕ) (tasks : List Task)
        → map beside_priority (raised priority id tasks) ≡ map beside_priority tasks }
    ensures ids { (priority : ℤ) (id : List ℕ) (tasks : List Task)
        → ids_of (raised priority id tasks) ≡ ids_of tasks }
    ensures numbers { (priority : ℤ) (id : List ℕ) (tasks : List Task)
        → numbers_of (raised priority id tasks) ≡ numbers_of tasks }
{}

/// A state stays valid where tasks are raised.
pub fn raising_keeps_validity()
    ensures { (s : State) (priority : ℤ) (id : List ℕ) → IsValidState s
        → IsValidState (record s { tasks = raised priority id s.tasks }) }
{}
