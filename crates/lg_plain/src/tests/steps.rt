//! Steps of the engine, through its trait.
ghost use Rattle.std.specs.Prelude.{◌<◌, ◌^◌, IfOk};
ghost use Rattle.lg_calls.specs.Request.{IsInRange};
ghost use Rattle.lg_calls.specs.Valid.{IsValidState};

use super::adding::ask;
use super::*;
use crate::Plain;
use lg_calls::{Engine, Reported, Request, StepFault};

// The state in which a scheduler begins that has room for one task.
fn with_room_for_one(alloc: Global) -> State
    ensures { IsValidState result }
{
    let mut settings = Settings::new();
    settings.max_tasks = 1;
    State::empty(alloc, settings)
}

fn started<E: Engine>(alloc: Global, base: State) -> Result<E, NoMemory>
    requires { IsValidState base }
{
    match E::start(alloc, base) {
        Ok(engine) => Ok(engine),
        Err((_, NoMemory)) => Err(NoMemory),
    }
}

// One step: with how many tasks the scheduler is full, and none where it replies.
fn full_at<E: Engine>(
    engine: &mut E,
    alloc: Global,
    now: Moment,
    request: &Request,
) -> Result<Option<u64>, NoMemory>
    requires in_time { now.0 < 2 ^ 62 }
    requires in_range { IsInRange request.now }
{
    match engine.step(alloc, now, request) {
        Ok(_) => Ok(None),
        Err(StepFault::Full(tasks)) => Ok(Some(tasks)),
        Err(StepFault::NoMemory) => Err(NoMemory),
    }
}

fn declared(alloc: Global, task: &str) -> Result<Request, NoMemory>
    ensures { IfOk result (λ request. IsInRange request) }
{
    Ok(Request::AddTask(ask(alloc, task, Reported::Pending)?))
}

// A second task finds no room, and leaves the state as it was, its moment included.
#[test]
fn a_full_scheduler_stays_as_it_was(rt: HostRuntime) -> Result<(), Fail> {
    let alloc = rt.alloc();
    let mut plain: Plain = started(alloc, with_room_for_one(alloc))?;
    let first = declared(alloc, "a")?;
    assert_eq!(rt; full_at(&mut plain, alloc, Moment(5_000), &first)?, None);
    let second = declared(alloc, "b")?;
    assert_eq!(rt;
        full_at(&mut plain, alloc, Moment(9_000), &second)?,
        Some(1)
    );
    assert_eq!(rt; full_at(&mut plain, alloc, Moment(9_000), &first)?, None);
    let state = plain.finish();
    assert_eq!(rt; state.tasks.len(), 1);
    assert_eq!(rt; state.workers.len(), 1);
    Ok(())
}
