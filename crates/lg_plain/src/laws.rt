//! What the change of status and `add_task` come to, for those who follow a task through them.
ghost use Rattle.std.specs.Prelude.{◌≡◌, ◌≢◌, ℕ, ◌+◌, ◌<◌, ◌^◌, false, true, Option, Some, None, IsSome, IsTrue, List, map};
ghost use Rattle.lg_base.specs.declared.moment.Moment.{Moment};
ghost use Rattle.lg_calls.specs.declared.methods.add_task.AddTask.{AddTask};
ghost use Rattle.lg_calls.specs.declared.request.Request.{Request};
ghost use Rattle.lg_calls.specs.declared.state.State.{State};
ghost use Rattle.lg_calls.specs.declared.status.Reported.TheVariants.{Pending};
ghost use Rattle.lg_calls.specs.declared.status.Status.{Status};
ghost use Rattle.lg_calls.specs.declared.status.Status.TheVariants.{Running, BatchRunning, Done, Failed, Disabled};
ghost use Rattle.lg_calls.specs.Methods.AddTask.{add_task_in_range};
ghost use Rattle.lg_calls.specs.Request.{IsInRange};
ghost use Rattle.lg_calls.specs.Status.{is_held, is_claim, forgiven, set_alone, enabled_alone, set_status, enable};
ghost use Rattle.lg_calls.specs.Step.{step};
ghost use Rattle.lg_calls.specs.Task.{Task};
ghost use Rattle.lg_calls.specs.Tasks.{ids_of, numbers_of, find_task, change_task};
ghost use Rattle.lg_calls.specs.Valid.{is_running, IsValidTask, IsValidState};
ghost use Rattle.lg_calls.specs.AddTask.Adding.{added, has_no_room};
ghost use Rattle.lg_calls.specs.Workers.{is_disabled, touched};
ghost use Rattle.lg_plain.specs.Laws.{rest_of, numbered, BeginsAnew, GainsNobody, GoesOn, RunsOn};
ghost use Rattle.lg_calls.specs.Running.{run_by};

/// A task that the scheduler disabled stays as it is, whichever task is set, unless that is set to DONE or DISABLED.
pub fn who_the_scheduler_disabled_stays()
    ensures { (s : State) (id : List ℕ) (status : Status) → status ≢ Done → status ≢ Disabled
        → (other : List ℕ) (task : Task) → find_task other s.tasks ≡ Some task → IsSome task.disabled_at
        → find_task other (set_status s id status).tasks ≡ Some task }
{}

/// A state stays valid where a task is set to a status in which it doesn't run. So a worker and a moment of running are
/// there exactly while a task runs.
pub fn setting_keeps_validity()
    ensures { (s : State) (id : List ℕ) (status : Status) → is_running status ≡ false
        → IsValidState s → IsValidState (set_status s id status) }
{
    lg_retry::laws::moments_stay_in_order();
}

/// A state stays valid where a task is enabled.
pub fn enabling_keeps_validity()
    ensures { (s : State) (id : List ℕ) → IsValidState s → IsValidState (enable s id) }
{
    lg_retry::laws::moments_stay_in_order();
}

/// A task that runs and is set to RUNNING runs on, and stays valid.
pub fn who_runs_runs_on()
    ensures runs_on { (delay : ℕ) (now : Moment) (task : Task) → is_running task.status ≡ true
        → IsValidTask now task → RunsOn task (set_alone delay now Running task) }
    ensures valid { (delay : ℕ) (now : Moment) (task : Task) → is_running task.status ≡ true
        → IsValidTask now task → IsValidTask now (set_alone delay now Running task) }
{}

/// A task that begins to run is valid once its worker and its moment are set, with a batch where it runs for another; one that
/// the scheduler disabled doesn't begin to run.
pub fn who_begins_to_run_is_valid()
    ensures { (delay : ℕ) (now : Moment) (status : Status) (task : Task) → is_running status ≡ true
        → is_held status task ≡ false → IsValidTask now task
        → (worker : List ℕ) (batch : Option (List ℕ)) → (status ≡ BatchRunning → IsSome batch)
        → IsValidTask now (run_by worker now batch (set_alone delay now status task)) }
{}

/// The task of the id is set by itself.
pub fn who_is_set_is_set_by_itself()
    ensures { (s : State) (id : List ℕ) (status : Status) (task : Task) → find_task id s.tasks ≡ Some task
        → find_task id (set_status s id status).tasks ≡ Some (set_alone s.settings.retry_delay s.moment status task) }
{}

/// A claim that is set to a status other than RUNNING takes the tasks of its batch along: each is set to that status by itself.
/// A task that doesn't run for another changes only by its own id, and so does one of another batch; and where the task of the
/// id is no claim, it changes alone.
pub fn claims_take_their_batch_along()
    ensures along { (s : State) (id : List ℕ) (status : Status) (claim : Task) → find_task id s.tasks ≡ Some claim
        → is_claim claim ≡ true → status ≢ Running → is_held status claim ≡ false
        → (other : List ℕ) (task : Task) → find_task other s.tasks ≡ Some task
        → task.status ≡ BatchRunning → task.batch ≡ claim.batch
        → find_task other (set_status s id status).tasks ≡ Some (set_alone s.settings.retry_delay s.moment status task) }
    ensures others { (s : State) (id : List ℕ) (status : Status) (other : List ℕ) (task : Task)
        → find_task other s.tasks ≡ Some task → other ≢ id → task.status ≢ BatchRunning
        → find_task other (set_status s id status).tasks ≡ Some task }
    ensures other_batches { (s : State) (id : List ℕ) (status : Status) (one : Task) → find_task id s.tasks ≡ Some one
        → (other : List ℕ) (task : Task) → find_task other s.tasks ≡ Some task → other ≢ id → task.batch ≢ one.batch
        → find_task other (set_status s id status).tasks ≡ Some task }
    ensures no_claim { (s : State) (id : List ℕ) (status : Status) (one : Task) → find_task id s.tasks ≡ Some one
        → is_claim one ≡ false → (other : List ℕ) (task : Task) → find_task other s.tasks ≡ Some task → other ≢ id
        → find_task other (set_status s id status).tasks ≡ Some task }
{}

/// Enabling changes the task of the id alone.
pub fn enabling_leaves_the_others()
    ensures { (s : State) (id : List ℕ) (other : List ℕ) (task : Task) → find_task other s.tasks ≡ Some task → other ≢ id
        → find_task other (enable s id).tasks ≡ Some task }
{}

/// Each task stays at its place, with its id, its number and all that a change of status isn't about; and so does all of the
/// state but its tasks.
pub fn all_else_stays()
    ensures state { (s : State) (id : List ℕ) (status : Status) → record (set_status s id status) { tasks = s.tasks } ≡ s }
    ensures enabled_state { (s : State) (id : List ℕ) → record (enable s id) { tasks = s.tasks } ≡ s }
    ensures set { (s : State) (id : List ℕ) (status : Status)
        → map rest_of (set_status s id status).tasks ≡ map rest_of s.tasks }
    ensures enabled { (s : State) (id : List ℕ) → map rest_of (enable s id).tasks ≡ map rest_of s.tasks }
    ensures ids { (s : State) (id : List ℕ) (status : Status)
        → ids_of (set_status s id status).tasks ≡ ids_of s.tasks }
    ensures numbers { (s : State) (id : List ℕ) (status : Status)
        → numbers_of (set_status s id status).tasks ≡ numbers_of s.tasks }
{}

/// A status that is set twice at one moment is set once. FAILED alone isn't: each report of it is one failure more, and the
/// second may be one too many.
pub fn set_twice_is_set_once()
    ensures { (s : State) (id : List ℕ) (status : Status) → status ≢ Failed
        → set_status (set_status s id status) id status ≡ set_status s id status }
{}

/// A disabled task that is enabled begins anew.
pub fn who_is_enabled_begins_anew()
    ensures { (delay : ℕ) (now : Moment) (task : Task) → task.status ≡ Disabled
        → BeginsAnew (record { 0 = now.0 + delay }) (enabled_alone delay now task) }
{}

/// To enable a disabled task is to forget that the scheduler disabled it and its failures, and then to set it to FAILED.
pub fn enabling_is_forgetting_and_failing()
    ensures { (s : State) (id : List ℕ) (task : Task) → find_task id s.tasks ≡ Some task → task.status ≡ Disabled
        → enable s id ≡ set_status (record s { tasks = change_task id forgiven s.tasks }) id Failed }
{}

/// Behind `add_task` the known tasks stand in their order, and those that were made stand behind them.
pub fn known_tasks_stay_in_order()
    ensures { (ask : AddTask) (s : State) → GoesOn (ids_of s.tasks) (ids_of (added ask s).tasks) }
{}

/// Behind `add_task` each known task has its number.
pub fn known_tasks_keep_their_numbers()
    ensures { (ask : AddTask) (s : State) → GoesOn (map numbered s.tasks) (map numbered (added ask s).tasks) }
{}

/// A worker that is disabled makes no task, and changes none by a call of one that isn't known.
pub fn a_disabled_worker_makes_no_task()
    ensures { (ask : AddTask) (s : State) → is_disabled ask.worker (touched ask.worker s).workers ≡ true
        → find_task ask.task_id s.tasks ≡ None → (added ask s).tasks ≡ s.tasks }
{}

/// A worker that is disabled becomes no stakeholder of any task.
pub fn a_disabled_worker_wants_nothing()
    ensures { (ask : AddTask) (s : State) → is_disabled ask.worker (touched ask.worker s).workers ≡ true
        → GainsNobody s.tasks (added ask s).tasks }
{}

/// A task that is done isn't changed by a report of PENDING before the cooldown has passed.
pub fn what_is_done_stays_for_the_cooldown()
    ensures { (ask : AddTask) (s : State) (task : Task) → ask.status ≡ Pending → find_task ask.task_id s.tasks ≡ Some task
        → task.status ≡ Done → s.moment.0 < task.updated.0 + s.settings.stable_done_cooldown
        → (added ask s).tasks ≡ s.tasks }
{}

/// A valid state stays valid behind `add_task`, whatever a call in range says, where there is room for the tasks that it makes.
pub fn adding_keeps_validity()
    ensures { (ask : AddTask) (s : State) → IsValidState s → IsTrue (add_task_in_range ask)
        → has_no_room s (added ask s) ≡ false → IsValidState (added ask s) }
{
    lg_retry::laws::moments_stay_in_order();
    lg_calls::laws::ids_stay_distinct();
    lg_calls::laws::numbers_keep_rising();
}

/// A valid state stays valid behind a step, at any moment below 2^62 and with any request in range.
pub fn steps_keep_validity()
    ensures { (s : State) (now : ℕ) (request : Request) → IsValidState s → now < 2 ^ 62 → IsInRange request
        → IsValidState (step s now request).0 }
{
    setting_keeps_validity();
    adding_keeps_validity();
    lg_calls::laws::ids_stay_distinct();
    lg_calls::laws::numbers_keep_rising();
    lg_calls::laws::who_walks_by_rank();
    lg_calls::laws::the_first_is_given();
}
