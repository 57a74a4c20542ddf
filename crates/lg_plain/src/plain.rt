ghost use Rattle.std.specs.Prelude.{◌≡◌, false, IsTrue, OnOk, OnErr};
ghost use Rattle.lg_calls.specs.Methods.AddTask.{add_task_in_range};
ghost use Rattle.lg_calls.specs.Status.{set_status, enable};
ghost use Rattle.lg_calls.specs.Valid.{is_running, IsValidState};
ghost use Rattle.lg_calls.specs.ValidOnce.{valid_state-prop};

use crate::{adding, change, laws, step};
use lg_base::{Moment, NoMemory, TaskId};
use lg_calls::{AddTask, Engine, Reply, Request, State, Status, StepFault};
use std::alloc::Global;

/// The scheduler over plain lists. It keeps a state, which is always valid.
#[derive(Drop)]
pub struct Plain {
    state: State,
    pub ghost is_valid: { IsValidState state } by { valid_state-prop state },
}

impl Plain {
    ghost use Rattle.lg_calls.specs.AddTask.Adding.{Adds};
    ghost use Rattle.lg_plain.specs.Plain.{state_of};
    ghost use Rattle.lg_plain.specs.Prepared.{wants_memory, wants_memory_to_enable};

    /// Begins with a state. It takes no memory.
    pub fn start(state: State) -> Plain
        requires { IsValidState state }
        ensures { state_of result ≡ state }
    {
        Plain { state }
    }

    /// The state.
    pub fn state(&self) -> &State
        ensures { result.now ≡ state_of self.now }
    {
        &self.state
    }

    /// Gives the state back. It takes no memory.
    pub fn into_state(self) -> State
        ensures same { result ≡ state_of self }
        ensures valid { IsValidState result }
    {
        let Plain { state } = self;
        state
    }

    /// Sets the task of an id to a status other than RUNNING and BATCH_RUNNING, at the moment of the state, by the six rules
    /// of the change of status. Where no task has the id nothing happens. A refusal leaves the state as it was, and comes
    /// only where a failure is added or a batch goes along.
    pub fn set(&mut self, alloc: Global, id: &TaskId, status: Status) -> Result<(), NoMemory>
        requires { is_running status ≡ false }
        ensures ok { OnOk result (state_of self.new ≡ set_status (state_of self.old) id.now status) }
        ensures err { OnErr result (state_of self.new ≡ state_of self.old) }
        ensures where_wanted { OnErr result (IsTrue (wants_memory status id.now (state_of self.old).tasks)) }
    {
        laws::setting_keeps_validity();
        change::set(&mut self.state, alloc, id, status)
    }

    /// Enables the task of an id, at the moment of the state: its failures are forgotten, and that the scheduler disabled
    /// it, and it is set to FAILED. Where no task has the id nothing happens. A refusal leaves the state as it was, and
    /// comes only where the task isn't disabled.
    pub fn enable(&mut self, alloc: Global, id: &TaskId) -> Result<(), NoMemory>
        ensures ok { OnOk result (state_of self.new ≡ enable (state_of self.old) id.now) }
        ensures err { OnErr result (state_of self.new ≡ state_of self.old) }
        ensures where_wanted { OnErr result (IsTrue (wants_memory_to_enable id.now (state_of self.old).tasks)) }
    {
        laws::enabling_keeps_validity();
        change::enable(&mut self.state, alloc, id)
    }

    /// A worker declares a task, or reports what became of one, at the moment of the state: `add_task`, with the rise of what
    /// the task waits for. `Full` with the number of the tasks, exactly where tasks would be made and the tasks with
    /// them would pass `max_tasks`, or their numbers 2^62. That and a want of memory leave the state as it was.
    pub fn add_task(&mut self, alloc: Global, ask: &AddTask) -> Result<(), StepFault>
        requires { IsTrue (add_task_in_range ask.now) }
        ensures { Adds ask.now (state_of self.old) (state_of self.new) result }
    {
        laws::adding_keeps_validity();
        adding::add_task(&mut self.state, alloc, ask)
    }
}

impl Engine for Plain {
    ghost state = { λ plain. plain.state };

    fn start(_alloc: Global, base: State) -> Result<Plain, (State, NoMemory)> {
        Ok(Plain { state: base })
    }

    fn step(&mut self, alloc: Global, now: Moment, request: &Request) -> Result<Reply, StepFault> {
        laws::steps_keep_validity();
        step::step(&mut self.state, alloc, now, request)
    }

    fn finish(self) -> State {
        let Plain { state } = self;
        state
    }

    ghost is_valid = { λ plain. plain.is_valid };
}
