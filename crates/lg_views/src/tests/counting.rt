//! What is counted for a worker and what it is told, where one task waits that doesn't name it. Sessions of the daemon show the
//! same among many tasks.
use super::{pending_state, text, written};
use crate::{count_pending, nothing_to_do, upstream_status, work_reply};
use lg_base::WorkerId;
use lg_calls::UpstreamStatus;
use std::alloc::Global;
use std::test::Fail;

fn counted(alloc: Global) -> Result<Vec<u8>, Fail> {
    let state = pending_state(alloc)?;
    let worker = WorkerId::from(text(alloc, "w")?);
    written(alloc, &count_pending(alloc, &state, &worker)?)
}

// What a worker is told that gets the task.
fn told(alloc: Global) -> Result<Vec<u8>, Fail> {
    let state = pending_state(alloc)?;
    let worker = WorkerId::from(text(alloc, "w")?);
    let given = state.tasks.as_slice().first();
    written(alloc, &work_reply(alloc, &state, &worker, given)?)
}

// What a worker is told for which there is nothing to do.
fn told_nothing(alloc: Global) -> Result<Vec<u8>, Fail> {
    let state = pending_state(alloc)?;
    let worker = WorkerId::from(text(alloc, "w")?);
    written(alloc, &nothing_to_do(alloc, &state, &worker)?)
}

// What the task waits for at worst.
fn worst(alloc: Global) -> Result<Option<UpstreamStatus>, Fail> {
    let state = pending_state(alloc)?;
    match state.tasks.as_slice().first() {
        None => Ok(None),
        Some(first) => Ok(upstream_status(alloc, &state, first)?),
    }
}

#[test]
fn a_worker_that_no_task_names_has_nothing_to_do(rt: HostRuntime) -> Result<(), Fail> {
    let counts = counted(rt.alloc())?;
    assert_eq!(rt;
        counts.as_slice(),
        b"{\"n_pending_last_scheduled\":0,\"n_pending_tasks\":0,\"n_unique_pending\":0,\"running_tasks\":[],\"worker_state\":\"active\"}".as_slice()
    );
    let nothing = told_nothing(rt.alloc())?;
    assert_eq!(rt;
        nothing.as_slice(),
        b"{\"n_pending_last_scheduled\":0,\"n_pending_tasks\":0,\"n_unique_pending\":0,\"running_tasks\":[],\"task_id\":null,\"worker_state\":\"active\"}".as_slice()
    );
    Ok(())
}

#[test]
fn a_worker_is_told_of_the_task_that_it_is_given(rt: HostRuntime) -> Result<(), Fail> {
    let given = told(rt.alloc())?;
    assert_eq!(rt;
        given.as_slice(),
        b"{\"n_pending_last_scheduled\":0,\"n_pending_tasks\":0,\"n_unique_pending\":0,\"running_tasks\":[],\"task_family\":\"B\",\"task_id\":\"B__99914b932b\",\"task_module\":null,\"task_params\":{},\"worker_state\":\"active\"}".as_slice()
    );
    Ok(())
}

#[test]
fn a_task_that_waits_for_none_lacks_its_input(rt: HostRuntime) -> Result<(), Fail> {
    let worst = worst(rt.alloc())?;
    assert_eq!(rt; worst, Some(UpstreamStatus::MissingInput));
    Ok(())
}
