//! What a worker gets that asks for work, for those who follow a task or a resource through the steps: the laws of assignment.
ghost use Rattle.std.specs.Prelude.{◌≡◌, ◌↔◌, ℕ, true, false, Some, None, List, IsTrue};
ghost use Rattle.lg_calls.specs.declared.methods.get_work.GetWork.{GetWork};
ghost use Rattle.lg_calls.specs.declared.state.State.{State};
ghost use Rattle.lg_calls.specs.Task.{Task};
ghost use Rattle.lg_calls.specs.Tasks.{change_task};
ghost use Rattle.lg_calls.specs.Valid.{IsValidState};
ghost use Rattle.lg_calls.specs.Work.Again.{given_again};
ghost use Rattle.lg_calls.specs.Work.Assigning.{running_since};
ghost use Rattle.lg_calls.specs.Work.Laws.{HasNoCandidate, IsFirst};
ghost use Rattle.lg_calls.specs.Work.Ready.{is_ready};
ghost use Rattle.lg_calls.specs.Work.Walk.{has_no_resources, is_trivial, walk};
ghost use Rattle.lg_calls.specs.Workers.{is_disabled};
ghost use Rattle.lg_plain.specs.WorkLaws.{asked, heard, seen, AreDone, BeginsToRun, FitsIn, Gives, GivesNothing, IsWithinLimit, LostBy};

use lg_calls::laws;

/// A task that begins to run was ready: it was PENDING, and each task that it waits for was known and DONE.
pub fn who_begins_to_run_was_ready()
    ensures ready { (s : State) (now : ℕ) (ask : GetWork) (task : Task) → IsValidState s
        → BeginsToRun s now ask task → IsTrue (is_ready (seen s now ask).tasks task) }
    ensures done { (s : State) (now : ℕ) (ask : GetWork) (task : Task) → IsValidState s
        → BeginsToRun s now ask task → AreDone (seen s now ask).tasks task.deps }
{
    laws::numbers_keep_rising();
    laws::who_walks_by_rank();
    laws::the_first_is_given();
}

/// What a task needs that begins to run fits beside what all RUNNING tasks take. Where the worker is trivial, it needs
/// nothing.
pub fn who_begins_to_run_fits()
    ensures fits { (s : State) (now : ℕ) (ask : GetWork) (task : Task) → IsValidState s
        → BeginsToRun s now ask task → FitsIn (seen s now ask) task }
    ensures trivial { (s : State) (now : ℕ) (ask : GetWork) (task : Task) → IsValidState s
        → BeginsToRun s now ask task → IsTrue (is_trivial ask.worker (seen s now ask)) → IsTrue (has_no_resources task) }
{
    laws::numbers_keep_rising();
    laws::who_walks_by_rank();
    laws::the_first_is_given();
    laws::a_trivial_walk_needs_nothing();
}

/// A task that begins to run is the first of the walk that can be given, and the reply gives it.
pub fn who_begins_to_run_is_the_first()
    ensures first { (s : State) (now : ℕ) (ask : GetWork) (task : Task) → IsValidState s
        → BeginsToRun s now ask task → IsFirst ask (seen s now ask) task }
    ensures told { (s : State) (now : ℕ) (ask : GetWork) (task : Task) → IsValidState s
        → BeginsToRun s now ask task → Gives task.id (asked s now ask).1 }
{
    laws::numbers_keep_rising();
    laws::who_walks_by_rank();
    laws::the_first_is_given();
}

/// A worker that isn't disabled, and gets nothing again, of a scheduler that isn't paused, gets no work exactly where no task
/// of the walk can be given.
pub fn no_work_is_given_where_none_can_be()
    ensures { (s : State) (now : ℕ) (ask : GetWork) → is_disabled ask.worker (heard s now ask).workers ≡ false
        → s.paused ≡ false → given_again ask (seen s now ask) ≡ None
        → (GivesNothing (asked s now ask).1 ↔ HasNoCandidate ask (seen s now ask) (walk ask.worker (seen s now ask))) }
{
    laws::the_first_is_given();
}

/// A disabled worker gets no work, and no task changes.
pub fn a_disabled_worker_gets_nothing()
    ensures told { (s : State) (now : ℕ) (ask : GetWork) → is_disabled ask.worker (heard s now ask).workers ≡ true
        → GivesNothing (asked s now ask).1 }
    ensures tasks { (s : State) (now : ℕ) (ask : GetWork) → is_disabled ask.worker (heard s now ask).workers ≡ true
        → (asked s now ask).0.tasks ≡ s.tasks }
{}

/// A paused scheduler gives only what is given again: no task begins to run, and where none is given again no task changes and
/// the reply gives no work.
pub fn a_paused_scheduler_gives_only_again()
    ensures nothing_begins { (s : State) (now : ℕ) (ask : GetWork) (task : Task) → IsValidState s → s.paused ≡ true
        → ¬ BeginsToRun s now ask task }
    ensures told { (s : State) (now : ℕ) (ask : GetWork) → s.paused ≡ true → given_again ask (seen s now ask) ≡ None
        → GivesNothing (asked s now ask).1 }
    ensures tasks { (s : State) (now : ℕ) (ask : GetWork) → s.paused ≡ true → given_again ask (seen s now ask) ≡ None
        → (asked s now ask).0.tasks ≡ s.tasks }
{
    laws::numbers_keep_rising();
    laws::who_walks_by_rank();
    laws::the_first_is_given();
}

/// A task that is given again is RUNNING, and lost by the worker. It keeps its record but for the moment since which it runs,
/// all other tasks stay, and the reply gives it.
pub fn who_is_given_again_runs_on()
    ensures lost { (s : State) (now : ℕ) (ask : GetWork) (task : Task) → IsValidState s
        → given_again ask (seen s now ask) ≡ Some task → LostBy ask (seen s now ask) task }
    ensures told { (s : State) (now : ℕ) (ask : GetWork) (task : Task) → is_disabled ask.worker (heard s now ask).workers ≡ false
        → given_again ask (seen s now ask) ≡ Some task → Gives task.id (asked s now ask).1 }
    ensures tasks { (s : State) (now : ℕ) (ask : GetWork) (task : Task) → is_disabled ask.worker (heard s now ask).workers ≡ false
        → given_again ask (seen s now ask) ≡ Some task
        → (asked s now ask).0.tasks ≡ change_task task.id (running_since (seen s now ask).moment) s.tasks }
{
    laws::who_walks_by_rank();
}

/// Where what all RUNNING tasks take of a resource is within its limit, it still is once a worker has asked for work.
pub fn what_runs_stays_within_its_limit()
    ensures { (s : State) (now : ℕ) (ask : GetWork) (name : List ℕ) → IsValidState s
        → IsWithinLimit s name → IsWithinLimit (asked s now ask).0 name }
{
    laws::numbers_keep_rising();
    laws::who_walks_by_rank();
    laws::the_first_is_given();
    laws::a_trivial_walk_needs_nothing();
}
