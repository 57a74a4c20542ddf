ghost use Rattle.std.specs.Prelude.{◌≡◌, IfOk};
ghost use Rattle.lg_calls.specs.Settings.{AreInRange};
ghost use Rattle.lg_calls.specs.State.{empty_state};
ghost use Rattle.lg_calls.specs.Valid.{IsValidState};

use crate::batcher::BatcherRec;
use crate::settings::Settings;
use crate::task::TaskRec;
use crate::worker::WorkerRec;
use lg_base::{Amounts, Moment, NoMemory, Seq};
use std::alloc::{AllocError, Global};

/// What the scheduler knows. It begins empty, and each request moves it on by one step.
#[derive(Debug, Drop)]
pub struct State {
    /// The tasks, in the order in which they were made.
    pub tasks: Seq<TaskRec>,
    /// The workers, in the order of their ids' bytes.
    pub workers: Seq<WorkerRec>,
    /// The batchers, in the order of their workers, and then of their families.
    pub batchers: Seq<BatcherRec>,
    /// The limit of each resource that has one.
    pub limits: Amounts,
    /// Whether no work is given.
    pub paused: bool,
    /// The moment of the last step, below 2^62.
    pub moment: Moment,
    /// The moment of the last pruning; none before the first step.
    pub pruned: Option<Moment>,
    /// The number that the next task gets, at most 2^62.
    pub next: u64,
    pub settings: Settings,
}

impl State {
    /// The state in which the scheduler begins: no tasks, workers, batchers or limits, not paused, at moment 0, and no
    /// pruning yet. It takes no memory.
    pub fn empty(alloc: Global, settings: Settings) -> State
        ensures empty { result ≡ empty_state settings }
        ensures valid { AreInRange settings → IsValidState result }
    {
        State {
            tasks: Seq::new(alloc),
            workers: Seq::new(alloc),
            batchers: Seq::new(alloc),
            limits: Amounts::new(alloc),
            paused: false,
            moment: Moment(0),
            pruned: None,
            next: 0,
            settings,
        }
    }

    /// A state equal to this one. Refused only where there is no memory.
    pub fn copy(&self) -> Result<State, NoMemory>
        ensures { IfOk result (λ copy. copy ≡ self.now) }
    {
        Ok(self.clone()?)
    }
}

impl Clone for State {
    ghost is_clone = { λ old new. new ≡ old };

    fn clone(&self) -> Result<State, AllocError> {
        let tasks = self.tasks.clone()?;
        let workers = self.workers.clone()?;
        let batchers = self.batchers.clone()?;
        let limits = self.limits.clone()?;
        let settings = self.settings.clone()?;
        Ok(State {
            tasks,
            workers,
            batchers,
            limits,
            paused: self.paused,
            moment: self.moment,
            pruned: self.pruned,
            next: self.next,
            settings,
        })
    }
}
