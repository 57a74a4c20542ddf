ghost use Rattle.std.specs.Prelude.{◌≡◌, List, Option, Some, length, map, position};
ghost use Rattle.std.specs.Option.{option_copied};
ghost use Rattle.lg_calls.specs.declared.state.State.{State};
ghost use Rattle.lg_calls.specs.Look.{CanBeLookedAt, tasks_at, task_at, place_of, tasks_at-all};
ghost use Rattle.lg_calls.specs.Task.{Task};
ghost use Rattle.lg_calls.specs.Tasks.{has_id};

use crate::settings::Settings;
use crate::state::State;
use crate::task::TaskRec;
use crate::worker::WorkerRec;
use lg_base::{Amounts, TaskId};

/// What holds a state, and lets each task be looked at by its place. Each call has the condition that there are fewer
/// than 2^32 tasks and that their ids differ. No call takes memory.
pub trait Look {
    /// The state.
    ghost state: { Self → State };

    /// The places: at each the task there, or none.
    ghost shelf: { Self → List (Option Task) };

    /// How many places there are. Some may be free.
    fn places(&self) -> u32
        requires { CanBeLookedAt (state self.now) }
        ensures { result ≡ length (shelf self.now) };

    /// The task at a place. There is none where the place is free, and none at `places` and beyond.
    fn at(&self, place: u32) -> Option<&TaskRec>
        requires { CanBeLookedAt (state self.now) }
        ensures { option_copied result ≡ task_at (shelf self.now) place };

    /// The place of the task of this id. There is none exactly where no task has the id.
    fn find(&self, id: &TaskId) -> Option<u32>
        requires { CanBeLookedAt (state self.now) }
        ensures { result ≡ place_of id.now (shelf self.now) };

    /// The workers, in the order of their ids' bytes.
    fn workers(&self) -> &[WorkerRec]
        requires { CanBeLookedAt (state self.now) }
        ensures { result.now ≡ (state self.now).workers };

    /// The limit of each resource that has one.
    fn limits(&self) -> &Amounts
        requires { CanBeLookedAt (state self.now) }
        ensures { result.now ≡ (state self.now).limits };

    /// The settings.
    fn settings(&self) -> &Settings
        requires { CanBeLookedAt (state self.now) }
        ensures { result.now ≡ (state self.now).settings };

    /// The tasks of the state are those at the places, in order.
    ghost holds_the_tasks: { (k : Self) → tasks_at (shelf k) ≡ (state k).tasks };
}

impl Look for State {
    ghost state = { λ s. s };

    ghost shelf = { λ s. map Some s.tasks };

    ghost holds_the_tasks = { λ s. tasks_at-all s.tasks };

    fn places(&self) -> u32 {
        self.tasks.len() as u32
    }

    fn at(&self, place: u32) -> Option<&TaskRec> {
        self.tasks.as_slice().get(place as usize)
    }

    fn find(&self, id: &TaskId) -> Option<u32> {
        let place = position_of(self.tasks.as_slice(), id)?;
        Some(place as u32)
    }

    fn workers(&self) -> &[WorkerRec] {
        self.workers.as_slice()
    }

    fn limits(&self) -> &Amounts {
        &self.limits
    }

    fn settings(&self) -> &Settings {
        &self.settings
    }
}

// The place of the task of an id in a list.
fn position_of(tasks: &[TaskRec], id: &TaskId) -> Option<usize>
    ensures { result ≡ position (has_id id.now) tasks.now }
{
    tasks.iter().position(|task| task.has_id(id))
}
