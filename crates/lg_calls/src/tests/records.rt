ghost use Rattle.std.specs.Prelude.{◌≡◌, IfOk, IsTrue, length};
ghost use Rattle.lg_calls.specs.Look.{CanBeLookedAt};
ghost use Rattle.lg_calls.specs.Tasks.{have_distinct_ids};

use crate::{BatcherRec, Info, Look, Settings, State, Status, TaskRec, WorkerRec};
use lg_base::{Amounts, Moment, Name, NoMemory, Seq, TaskId, Text, WorkerId};
use lg_retry::{Failures, Policy};
use std::alloc::Global;
use std::test::Fail;

fn text(alloc: Global, word: &str) -> Result<Text, NoMemory>
    ensures { IfOk result (λ text. text ≡ word.now) }
{
    Ok(Text::copied(alloc, word)?)
}

fn amounts(alloc: Global, name: &str, amount: u32) -> Result<Amounts, NoMemory> {
    let name = text(alloc, name)?;
    let mut amounts = Amounts::new(alloc);
    amounts.put(Name::from(name), amount)?;
    Ok(amounts)
}

fn worker_ids(alloc: Global, word: &str) -> Result<Seq<WorkerId>, NoMemory> {
    let word = text(alloc, word)?;
    let mut ids = Seq::new(alloc);
    ids.push(WorkerId::from(word))?;
    Ok(ids)
}

fn names(alloc: Global) -> Result<(Name, Text, Seq<(Name, Text)>), NoMemory> {
    let family = text(alloc, "Copy")?;
    let module = text(alloc, "module_a")?;
    let name = text(alloc, "day")?;
    let value = text(alloc, "today")?;
    let mut params = Seq::new(alloc);
    params.push((Name::from(name), value))?;
    Ok((Name::from(family), module, params))
}

fn needs(alloc: Global) -> Result<(Seq<TaskId>, Seq<WorkerId>, Seq<WorkerId>), NoMemory> {
    let dep = text(alloc, "dep_a")?;
    let mut deps = Seq::new(alloc);
    deps.push(TaskId::from(dep))?;
    let workers = worker_ids(alloc, "worker_a")?;
    let stakeholders = worker_ids(alloc, "holder_a")?;
    Ok((deps, workers, stakeholders))
}

fn runs(alloc: Global) -> Result<(Text, Text, Failures), NoMemory> {
    let worker = text(alloc, "runner_a")?;
    let batch = text(alloc, "batch_a")?;
    let mut failures = Failures::new(alloc);
    failures.reserve()?;
    failures.add(Moment(111), &Policy::default());
    Ok((worker, batch, failures))
}

fn told(alloc: Global) -> Result<(Text, Text, Text), NoMemory> {
    let expl = text(alloc, "expl_a")?;
    let tracking_url = text(alloc, "url_a")?;
    let status_message = text(alloc, "message_a")?;
    Ok((expl, tracking_url, status_message))
}

// A task that has each field.
fn full_task(alloc: Global, id: TaskId) -> Result<TaskRec, NoMemory> {
    let (family, module, params) = names(alloc)?;
    let (deps, workers, stakeholders) = needs(alloc)?;
    let (worker, batch, failures) = runs(alloc)?;
    let (expl, tracking_url, status_message) = told(alloc)?;
    let resources = amounts(alloc, "cpu", 112)?;
    Ok(TaskRec {
        id,
        number: 113,
        family,
        module: Some(module),
        params,
        status: Status::BatchRunning,
        deps,
        workers,
        stakeholders,
        priority: -114,
        resources,
        added: Moment(115),
        updated: Moment(116),
        runnable: true,
        batchable: true,
        accepts_messages: true,
        worker_running: Some(WorkerId::from(worker)),
        time_running: Some(Moment(117)),
        batch: Some(batch),
        failures,
        policy: Policy {
            retry_count: 118,
            disable_window: 119,
            disable_hard_timeout: 120,
        },
        retry: Some(Moment(121)),
        disabled_at: Some(Moment(122)),
        remove: Some(Moment(123)),
        expl: Some(expl),
        tracking_url: Some(tracking_url),
        status_message: Some(status_message),
        progress: Some(-124),
    })
}

fn infos(alloc: Global) -> Result<Seq<(Name, Info)>, NoMemory> {
    let mut infos = Seq::new(alloc);
    let host = text(alloc, "host_a")?;
    for info in [
        Info::Text(host),
        Info::Number(-211),
        Info::Truth(true),
        Info::Null,
    ] {
        let name = text(alloc, "name")?;
        infos.push((Name::from(name), info))?;
    }
    Ok(infos)
}

fn full_worker(alloc: Global) -> Result<WorkerRec, NoMemory> {
    let id = text(alloc, "worker_b")?;
    let info = infos(alloc)?;
    Ok(WorkerRec {
        id: WorkerId::from(id),
        started: Moment(212),
        last_active: Moment(213),
        last_get_work: Some(Moment(214)),
        info,
        disabled: true,
    })
}

fn full_batcher(alloc: Global) -> Result<BatcherRec, NoMemory> {
    let worker = text(alloc, "worker_c")?;
    let family = text(alloc, "family_c")?;
    let name = text(alloc, "name_c")?;
    let mut names = Seq::new(alloc);
    names.push(Name::from(name))?;
    Ok(BatcherRec {
        worker: WorkerId::from(worker),
        family: Name::from(family),
        names,
        size: Some(311),
    })
}

fn full_settings(alloc: Global) -> Result<Settings, NoMemory> {
    let path = text(alloc, "path_a")?;
    let mut settings = Settings::new();
    settings.state_path = Some(path);
    Ok(settings)
}

// A state of one task, one worker and one batcher in which each field is set.
fn full_state(alloc: Global) -> Result<State, NoMemory> {
    let id = text(alloc, "task_a")?;
    let mut tasks = Seq::new(alloc);
    tasks.push(full_task(alloc, TaskId::from(id))?)?;
    let mut workers = Seq::new(alloc);
    workers.push(full_worker(alloc)?)?;
    let mut batchers = Seq::new(alloc);
    batchers.push(full_batcher(alloc)?)?;
    let limits = amounts(alloc, "gpu", 411)?;
    let settings = full_settings(alloc)?;
    Ok(State {
        tasks,
        workers,
        batchers,
        limits,
        paused: true,
        moment: Moment(412),
        pruned: Some(Moment(413)),
        next: 414,
        settings,
    })
}

// A copy shows each field as the state does.
#[test]
fn copies_have_every_field(rt: HostRuntime) -> Result<(), Fail> {
    let state = full_state(rt.alloc())?;
    let copy = state.copy()?;
    let shown = format!(in rt.alloc(); "{state:?}")?;
    let copied = format!(in rt.alloc(); "{copy:?}")?;
    assert_eq!(rt; copied.as_str(), shown.as_str());
    for word in "task_a 113 Copy module_a day today BatchRunning dep_a worker_a holder_a -114 cpu 112 115 116 \
        runner_a 117 batch_a 111 118 119 120 121 122 123 expl_a url_a message_a -124 worker_b 212 213 214 host_a \
        -211 Truth(true) Null worker_c family_c name_c path_a 311 gpu 411 412 413 414"
        .split(' ')
    {
        assert!(rt; copied.as_str().contains(word), "{word}");
    }
    Ok(())
}

// The table of Luigi 3's settings, in milliseconds, with the settings of this scheduler's own.
#[test]
fn settings_begin_with_the_defaults(rt: HostRuntime) -> Result<(), Fail> {
    let settings = Settings::new();
    let rows = [
        (settings.retry_delay, 900_000),
        (settings.remove_delay, 600_000),
        (settings.worker_disconnect_delay, 60_000),
        (settings.disable_window, 3_600_000),
        (settings.disable_hard_timeout, 999_999_999_000),
        (settings.disable_persist, 86_400_000),
        (settings.retry_count, 999_999_999),
        (settings.max_shown_tasks, 100_000),
        (settings.max_graph_nodes, 100_000),
        (settings.stable_done_cooldown, 10_000),
        (settings.max_tasks, 1_000_000),
    ];
    for (set, expected) in rows {
        assert_eq!(rt; set, expected);
    }
    assert!(rt; !settings.prune_on_get_work);
    assert!(rt; settings.pause_enabled);
    assert!(rt; settings.state_path.is_none());
    let policy = settings.policy();
    assert_eq!(rt;
        (
            policy.retry_count,
            policy.disable_window,
            policy.disable_hard_timeout
        ),
        (999_999_999, 3_600_000, 999_999_999_000)
    );
    Ok(())
}

// A task of this id, and of this family.
fn bare_task(alloc: Global, id: TaskId, family: Name) -> TaskRec
    ensures { result.id ≡ id }
{
    TaskRec {
        id,
        number: 0,
        family,
        module: None,
        params: Seq::new(alloc),
        status: Status::Pending,
        deps: Seq::new(alloc),
        workers: Seq::new(alloc),
        stakeholders: Seq::new(alloc),
        priority: 0,
        resources: Amounts::new(alloc),
        added: Moment(0),
        updated: Moment(0),
        runnable: false,
        batchable: false,
        accepts_messages: false,
        worker_running: None,
        time_running: None,
        batch: None,
        failures: Failures::new(alloc),
        policy: Policy::default(),
        retry: None,
        disabled_at: None,
        remove: None,
        expl: None,
        tracking_url: None,
        status_message: None,
        progress: None,
    }
}

fn task_of(alloc: Global, id: &str) -> Result<TaskRec, NoMemory>
    ensures { IfOk result (λ task. task.id ≡ id.now) }
{
    let id = text(alloc, id)?;
    let family = text(alloc, "Copy")?;
    Ok(bare_task(alloc, TaskId::from(id), Name::from(family)))
}

fn two_tasks(alloc: Global) -> Result<Seq<TaskRec>, NoMemory>
    ensures few { IfOk result (λ tasks. length tasks ≡ 2) }
    ensures differ { IfOk result (λ tasks. IsTrue (have_distinct_ids tasks)) }
{
    let first = task_of(alloc, "task_a")?;
    let second = task_of(alloc, "task_b")?;
    let mut tasks = Seq::new(alloc);
    tasks.push(first)?;
    tasks.push(second)?;
    Ok(tasks)
}

// A state of two tasks.
fn state_of_two(alloc: Global) -> Result<State, NoMemory>
    ensures { IfOk result CanBeLookedAt }
{
    let tasks = two_tasks(alloc)?;
    let mut state = State::empty(alloc, Settings::new());
    state.tasks = tasks;
    Ok(state)
}

// How many places there are, and the place of an id.
fn places_and_place<K: Look>(look: &K, id: &TaskId) -> (u32, Option<u32>)
    requires { CanBeLookedAt (K.state look.now) }
{
    (look.places(), look.find(id))
}

#[test]
fn tasks_are_seen_by_their_places(rt: HostRuntime) -> Result<(), Fail> {
    let state = state_of_two(rt.alloc())?;
    let rows = [
        // id, its place
        ("task_a", Some(0)),
        ("task_b", Some(1)),
        ("task_c", None),
        ("task", None),
        ("", None),
    ];
    for (id, place) in rows {
        let id = TaskId::from(text(rt.alloc(), id)?);
        assert_eq!(rt; places_and_place(&state, &id), (2, place), "{id:?}");
    }
    let seen = [
        (0, Some("task_a")),
        (1, Some("task_b")),
        (2, None),
        (u32::MAX, None),
    ];
    for (place, id) in seen {
        assert_eq!(rt; state.at(place).map(|task| task.id.as_str()), id);
    }
    assert_eq!(rt; Look::workers(&state).len(), 0);
    assert_eq!(rt; Look::limits(&state).entries().len(), 0);
    assert_eq!(rt; Look::settings(&state).max_tasks, 1_000_000);
    Ok(())
}
