//! Work that is given to a worker that asks.
ghost use Rattle.std.specs.Prelude.{IfOk};
ghost use Rattle.lg_calls.specs.Request.{IsInRange};

use super::adding::ask;
use super::*;
use crate::Plain;
use lg_calls::{DisableWorker, Engine, GetWork, Reply, Reported, Request, StepFault};
use lg_json::Out;

fn worker(alloc: Global) -> Result<WorkerId, NoMemory> {
    Ok(WorkerId::from(text(alloc, "w")?))
}

// Worker `w` reports task `t`, which it can run.
fn declares(alloc: Global) -> Result<Request, NoMemory>
    ensures { IfOk result IsInRange }
{
    Ok(Request::AddTask(ask(alloc, "t", Reported::Pending)?))
}

// Worker `w` asks for work, as an assistant, and doesn't tell what it runs.
fn asks(alloc: Global) -> Result<Request, NoMemory>
    ensures { IfOk result IsInRange }
{
    Ok(Request::GetWork(GetWork {
        worker: worker(alloc)?,
        assistant: true,
        current_tasks: None,
    }))
}

fn disables(alloc: Global) -> Result<Request, NoMemory>
    ensures { IfOk result IsInRange }
{
    let worker = worker(alloc)?;
    Ok(Request::DisableWorker(DisableWorker { worker }))
}

// What is replied at 5,000, if there is room.
fn replied(plain: &mut Plain, alloc: Global, request: &Request) -> Result<Option<Reply>, NoMemory>
    requires { IsInRange request.now }
{
    match plain.step(alloc, Moment(5_000), request) {
        Ok(reply) => Ok(Some(reply)),
        Err(StepFault::Full(_)) => Ok(None),
        Err(StepFault::NoMemory) => Err(NoMemory),
    }
}

// The id of the task that a reply gives, and the empty text where it gives none.
fn given(reply: &Option<Reply>) -> &str {
    match reply {
        Some(Reply(Out::Object(members))) => task_of(members.as_slice()),
        _ => "no record",
    }
}

fn task_of(members: &[(Name, Out)]) -> &str {
    for (name, value) in members {
        if name.as_str() == "task_id" {
            return match value {
                Out::Null => "",
                Out::Str(id) => id.as_str(),
                _ => "no id",
            };
        }
    }
    "no task_id"
}

// A task is given once; it runs since then.
#[test]
fn a_worker_gets_a_task_once(rt: HostRuntime) -> Result<(), Fail> {
    let alloc = rt.alloc();
    let mut plain = Plain::start(State::empty(alloc, Settings::new()));
    let _ = replied(&mut plain, alloc, &declares(alloc)?)?;
    let first = replied(&mut plain, alloc, &asks(alloc)?)?;
    assert_eq!(rt; given(&first), "t");
    let second = replied(&mut plain, alloc, &asks(alloc)?)?;
    assert_eq!(rt; given(&second), "");
    let state = plain.into_state();
    for task in state.tasks.as_slice() {
        let shown = shown(alloc, task)?;
        assert_eq!(rt;
            shown.as_str(),
            "Running 5000, true Some(5000) false, None 0, None None None"
        );
    }
    Ok(())
}

// A disabled worker gets nothing, though the task can be run by anyone.
#[test]
fn a_disabled_worker_gets_no_task(rt: HostRuntime) -> Result<(), Fail> {
    let alloc = rt.alloc();
    let mut plain = Plain::start(State::empty(alloc, Settings::new()));
    let _ = replied(&mut plain, alloc, &declares(alloc)?)?;
    let _ = replied(&mut plain, alloc, &disables(alloc)?)?;
    let reply = replied(&mut plain, alloc, &asks(alloc)?)?;
    assert_eq!(rt; given(&reply), "");
    Ok(())
}
