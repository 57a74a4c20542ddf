//! The worked rows, and a task with each kind of field.

mod counting;

ghost use Rattle.std.specs.Prelude.{◌≡◌, ◌≢◌, IfOk, IsTrue, is_some, false};
ghost use Rattle.lg_calls.specs.Order.{are_sorted, are_distinct};
ghost use Rattle.lg_calls.specs.declared.status.Status.TheVariants.{Failed, BatchRunning};
ghost use Rattle.lg_calls.specs.Valid.{IsValidTask, IsValidState, NotLater, is_running};
ghost use Rattle.lg_views.specs.Listed.{last_moment, CanBeListed};

use crate::{
    display_name, fetch_error, laws, resource_list, resources, status_counts, task_record,
    task_search,
};
use lg_base::{Amounts, Moment, Name, NoMemory, Seq, TaskId, Text, WorkerId};
use lg_calls::{Settings, State, Status, TaskRec};
use lg_io::{MemorySink, NoFaults};
use lg_json::{Out, emit};
use lg_retry::{Failures, Policy};
use std::alloc::Global;
use std::test::Fail;

fn text(alloc: Global, word: &str) -> Result<Text, NoMemory> {
    Ok(Text::copied(alloc, word)?)
}

fn written(alloc: Global, tree: &Out) -> Result<Vec<u8>, Fail> {
    let mut sink = MemorySink::new(alloc, 3, NoFaults);
    emit(tree, &mut sink)?;
    Ok(sink.bytes().to_vec(alloc)?)
}

// Which task it is, what it waits for, and who can run it.
#[derive(Drop)]
struct Who {
    id: TaskId,
    number: u64,
    deps: Seq<TaskId>,
    workers: Seq<WorkerId>,
    ghost deps_rise: { IsTrue (are_sorted deps) },
    ghost workers_differ: { IsTrue (are_distinct workers) },
}

// The first task, which waits for none.
fn first(alloc: Global) -> Result<Who, NoMemory>
    ensures { IfOk result (λ who. who.number ≡ 0) }
{
    let id = text(alloc, "B__99914b932b")?;
    Ok(Who {
        id: TaskId::from(id),
        number: 0,
        deps: Seq::new(alloc),
        workers: Seq::new(alloc),
    })
}

// The task of this family without parameters that was added at 5. The worker runs it since 6, if there is one.
fn task_with(
    alloc: Global,
    who: Who,
    family: &str,
    status: Status,
    runner: Option<WorkerId>,
    resources: Amounts,
) -> Result<TaskRec, NoMemory>
    requires runs { is_some runner ≡ is_running status }
    requires has_not_failed { status ≢ Failed }
    requires is_alone { status ≢ BatchRunning }
    ensures id { IfOk result (λ task. task.id ≡ who.id) }
    ensures number { IfOk result (λ task. task.number ≡ who.number) }
    ensures valid { IfOk result (IsValidTask (record { 0 = 6 })) }
    ensures valid_later { IfOk result (IsValidTask last_moment) }
{
    let family = text(alloc, family)?;
    let Who {
        id,
        number,
        deps,
        workers,
    } = who;
    let since = since(&runner);
    Ok(TaskRec {
        id,
        number,
        family: Name::from(family),
        module: None,
        params: Seq::new(alloc),
        status,
        deps,
        workers,
        stakeholders: Seq::new(alloc),
        priority: -3,
        resources,
        added: Moment(5),
        updated: Moment(6),
        runnable: true,
        batchable: false,
        accepts_messages: false,
        worker_running: runner,
        time_running: since,
        batch: None,
        failures: Failures::new(alloc),
        policy: Policy::default(),
        retry: None,
        disabled_at: None,
        remove: None,
        expl: None,
        tracking_url: None,
        status_message: None,
        progress: None,
    })
}

// Since when a task runs, if there is a worker that runs it.
fn since(runner: &Option<WorkerId>) -> Option<Moment>
    ensures runs { is_some result ≡ is_some runner.now }
    ensures at_six { NotLater result (record { 0 = 6 }) }
{
    match runner {
        None => None,
        Some(_) => Some(Moment(6)),
    }
}

// One that doesn't run, and takes nothing.
fn task(alloc: Global, family: &str, status: Status) -> Result<TaskRec, NoMemory>
    requires rests { is_running status ≡ false }
    requires has_not_failed { status ≢ Failed }
    ensures number { IfOk result (λ task. task.number ≡ 0) }
    ensures valid { IfOk result (IsValidTask (record { 0 = 6 })) }
    ensures valid_later { IfOk result (IsValidTask last_moment) }
{
    let who = first(alloc)?;
    task_with(alloc, who, family, status, None, Amounts::new(alloc))
}

// One that worker `w` runs, and that takes `gpu` 1.
fn running_task(alloc: Global) -> Result<TaskRec, NoMemory>
    ensures number { IfOk result (λ task. task.number ≡ 0) }
    ensures valid { IfOk result (IsValidTask (record { 0 = 6 })) }
{
    let worker = WorkerId::from(text(alloc, "w")?);
    let resources = gpu(alloc, 1)?;
    let who = first(alloc)?;
    task_with(alloc, who, "B", Status::Running, Some(worker), resources)
}

fn shown_pending(alloc: Global) -> Result<Vec<u8>, Fail> {
    let task = task(alloc, "B", Status::Pending)?;
    written(alloc, &task_record(alloc, &task)?)
}

fn shown_disabled(alloc: Global) -> Result<Vec<u8>, Fail> {
    let task = task(alloc, "B", Status::Disabled)?;
    written(alloc, &task_record(alloc, &task)?)
}

#[test]
fn a_task_is_shown(rt: HostRuntime) -> Result<(), Fail> {
    let pending = shown_pending(rt.alloc())?;
    assert_eq!(rt;
        pending.as_slice(),
        b"{\"accepts_messages\":false,\"display_name\":\"B()\",\"last_updated\":6,\"name\":\"B\",\"params\":{},\"priority\":-3,\"progress_percentage\":null,\"resources\":{},\"resources_running\":null,\"start_time\":5,\"status\":\"PENDING\",\"status_message\":null,\"time_running\":null,\"tracking_url\":null,\"worker_running\":null,\"workers\":[]}".as_slice()
    );
    let disabled = shown_disabled(rt.alloc())?;
    assert_eq!(rt;
        disabled.as_slice(),
        b"{\"accepts_messages\":false,\"display_name\":\"B()\",\"last_updated\":6,\"name\":\"B\",\"params\":{},\"priority\":-3,\"progress_percentage\":null,\"re_enable_able\":false,\"resources\":{},\"resources_running\":null,\"start_time\":5,\"status\":\"DISABLED\",\"status_message\":null,\"time_running\":null,\"tracking_url\":null,\"worker_running\":null,\"workers\":[]}".as_slice()
    );
    Ok(())
}

// The parameters of these names and values.
fn params_of(alloc: Global, pairs: &[(&str, &str)]) -> Result<Seq<(Name, Text)>, NoMemory> {
    let mut params = Seq::new(alloc);
    for (name, value) in pairs {
        let name = text(alloc, name)?;
        let value = text(alloc, value)?;
        params.push((Name::from(name), value))?;
    }
    Ok(params)
}

// Whether a task of the family `Copy` with these parameters is shown under this name.
fn is_shown_as(alloc: Global, pairs: &[(&str, &str)], expected: &str) -> Result<bool, NoMemory> {
    let mut task = task(alloc, "Copy", Status::Pending)?;
    task.params = params_of(alloc, pairs)?;
    let shown = display_name(alloc, &task)?;
    Ok(shown.as_str() == expected)
}

#[test]
fn parameters_stand_in_the_name(rt: HostRuntime) -> Result<(), Fail> {
    let rows: [(&[(&str, &str)], &str); 4] = [
        (&[], "Copy()"),
        (&[("day", "2026-01-02")], "Copy(day=2026-01-02)"),
        (
            &[("day", "2026-01-02"), ("n", "")],
            "Copy(day=2026-01-02, n=)",
        ),
        (&[("n", ""), ("x", "a, b=c")], "Copy(n=, x=a, b=c)"),
    ];
    for (pairs, expected) in rows {
        let same = is_shown_as(rt.alloc(), pairs, expected)?;
        assert!(rt; same);
    }
    Ok(())
}

// So much of `gpu`.
fn gpu(alloc: Global, amount: u32) -> Result<Amounts, NoMemory> {
    let name = text(alloc, "gpu")?;
    let mut amounts = Amounts::new(alloc);
    amounts.put(Name::from(name), amount)?;
    Ok(amounts)
}

// A state of this task and the limit `gpu` 2.
fn state_of(alloc: Global, task: TaskRec) -> Result<State, NoMemory>
    requires valid { IsValidTask (record { 0 = 6 }) task }
    requires number { task.number ≡ 0 }
    ensures { IfOk result IsValidState }
{
    let mut tasks = Seq::new(alloc);
    tasks.push(task)?;
    let limits = gpu(alloc, 2)?;
    let mut state = State::empty(alloc, Settings::new());
    state.tasks = tasks;
    state.limits = limits;
    state.moment = Moment(6);
    state.next = 1;
    Ok(state)
}

fn pending_state(alloc: Global) -> Result<State, NoMemory>
    ensures { IfOk result CanBeListed }
{
    laws::valid_states_can_be_listed();
    let task = task(alloc, "B", Status::Pending)?;
    state_of(alloc, task)
}

fn running_state(alloc: Global) -> Result<State, NoMemory>
    ensures { IfOk result CanBeListed }
{
    laws::valid_states_can_be_listed();
    let task = running_task(alloc)?;
    state_of(alloc, task)
}

fn shown_error(alloc: Global, id: &str) -> Result<Vec<u8>, Fail> {
    let state = pending_state(alloc)?;
    let id = TaskId::from(text(alloc, id)?);
    written(alloc, &fetch_error(alloc, &state, &id)?)
}

#[test]
fn errors_are_shown(rt: HostRuntime) -> Result<(), Fail> {
    let unknown = shown_error(rt.alloc(), "u")?;
    assert_eq!(rt;
        unknown.as_slice(),
        b"{\"error\":\"\",\"taskId\":\"u\"}".as_slice()
    );
    let known = shown_error(rt.alloc(), "B__99914b932b")?;
    assert_eq!(rt;
        known.as_slice(),
        b"{\"displayName\":\"B()\",\"error\":\"\",\"taskFamily\":\"B\",\"taskId\":\"B__99914b932b\",\"taskModule\":null,\"taskParams\":{}}".as_slice()
    );
    Ok(())
}

fn shown_counts(alloc: Global, state: &State) -> Result<Vec<u8>, Fail>
    requires { CanBeListed state.now }
{
    written(alloc, &status_counts(alloc, state)?)
}

fn shown_resources(alloc: Global, state: &State) -> Result<Vec<u8>, Fail>
    requires { CanBeListed state.now }
{
    written(alloc, &resources(alloc, state)?)
}

fn shown_limits(alloc: Global, state: &State) -> Result<Vec<u8>, Fail>
    requires { CanBeListed state.now }
{
    written(alloc, &resource_list(alloc, state)?)
}

#[test]
fn a_pending_task_takes_nothing(rt: HostRuntime) -> Result<(), Fail> {
    let state = pending_state(rt.alloc())?;
    let counts = shown_counts(rt.alloc(), &state)?;
    assert_eq!(rt;
        counts.as_slice(),
        b"{\"BATCH_RUNNING\":0,\"DISABLED\":0,\"DONE\":0,\"FAILED\":0,\"PENDING\":1,\"RUNNING\":0,\"UNKNOWN\":0}".as_slice()
    );
    let used = shown_resources(rt.alloc(), &state)?;
    assert_eq!(rt;
        used.as_slice(),
        b"{\"gpu\":{\"total\":2,\"used\":0}}".as_slice()
    );
    let listed = shown_limits(rt.alloc(), &state)?;
    assert_eq!(rt;
        listed.as_slice(),
        b"[{\"name\":\"gpu\",\"num_consumer\":0,\"num_total\":2,\"num_used\":0,\"running\":{}}]".as_slice()
    );
    Ok(())
}

#[test]
fn a_running_task_takes_its_resources(rt: HostRuntime) -> Result<(), Fail> {
    let state = running_state(rt.alloc())?;
    let counts = shown_counts(rt.alloc(), &state)?;
    assert_eq!(rt;
        counts.as_slice(),
        b"{\"BATCH_RUNNING\":0,\"DISABLED\":0,\"DONE\":0,\"FAILED\":0,\"PENDING\":0,\"RUNNING\":1,\"UNKNOWN\":0}".as_slice()
    );
    let used = shown_resources(rt.alloc(), &state)?;
    assert_eq!(rt;
        used.as_slice(),
        b"{\"gpu\":{\"total\":2,\"used\":1}}".as_slice()
    );
    let listed = shown_limits(rt.alloc(), &state)?;
    assert_eq!(rt;
        listed.as_slice(),
        b"[{\"name\":\"gpu\",\"num_consumer\":1,\"num_total\":2,\"num_used\":1,\"running\":{\"B__99914b932b\":{\"accepts_messages\":false,\"display_name\":\"B()\",\"last_updated\":6,\"name\":\"B\",\"params\":{},\"priority\":-3,\"progress_percentage\":null,\"resources\":{\"gpu\":1},\"resources_running\":{\"gpu\":1},\"start_time\":5,\"status\":\"RUNNING\",\"status_message\":null,\"time_running\":6,\"tracking_url\":null,\"worker_running\":\"w\",\"workers\":[]}}}]".as_slice()
    );
    Ok(())
}

fn shown_search(alloc: Global, part: &str) -> Result<Vec<u8>, Fail> {
    let state = pending_state(alloc)?;
    let part = text(alloc, part)?;
    written(alloc, &task_search(alloc, &state, &part)?)
}

#[test]
fn tasks_are_found_by_a_part_of_their_ids(rt: HostRuntime) -> Result<(), Fail> {
    let none = shown_search(rt.alloc(), "zz")?;
    assert_eq!(rt; none.as_slice(), b"{}".as_slice());
    let one = shown_search(rt.alloc(), "914b")?;
    assert_eq!(rt;
        one.as_slice(),
        b"{\"PENDING\":{\"B__99914b932b\":{\"accepts_messages\":false,\"display_name\":\"B()\",\"last_updated\":6,\"name\":\"B\",\"params\":{},\"priority\":-3,\"progress_percentage\":null,\"resources\":{},\"resources_running\":null,\"start_time\":5,\"status\":\"PENDING\",\"status_message\":null,\"time_running\":null,\"tracking_url\":null,\"worker_running\":null,\"workers\":[]}}}".as_slice()
    );
    Ok(())
}
