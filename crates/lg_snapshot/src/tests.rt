//! The worked rows, and states in which every field is set.
use crate::laws::written_is_read;
use crate::{decode, encode};
use lg_base::{Amounts, Moment, Name, NoMemory, Seq, TaskId, Text, WorkerId};
use lg_calls::{BatcherRec, Info, Settings, State, Status, TaskRec, WorkerRec};
use lg_retry::{Failures, Policy};
use std::alloc::Global;
use std::process::Abort;
use std::test::Fail;

fn text(alloc: Global, word: &str) -> Result<Text, NoMemory> {
    Ok(Text::copied(alloc, word)?)
}

fn amounts(alloc: Global, words: &[(&str, u32)]) -> Result<Amounts, NoMemory> {
    let mut amounts = Amounts::new(alloc);
    for (name, amount) in words {
        let name = text(alloc, *name)?;
        amounts.put(Name::from(name), *amount)?;
    }
    Ok(amounts)
}

fn worker_ids(alloc: Global, words: &[&str]) -> Result<Seq<WorkerId>, NoMemory> {
    let mut ids = Seq::new(alloc);
    for word in words {
        let word = text(alloc, *word)?;
        ids.push(WorkerId::from(word))?;
    }
    Ok(ids)
}

// A task of which nothing is known but its id.
fn bare_task(alloc: Global, id: &str, number: u64) -> Result<TaskRec, NoMemory> {
    let id = text(alloc, id)?;
    Ok(TaskRec {
        id: TaskId::from(id),
        number,
        family: Name::from(Text::from_string(String::new(alloc))),
        module: None,
        params: Seq::new(alloc),
        status: Status::Unknown,
        deps: Seq::new(alloc),
        workers: Seq::new(alloc),
        stakeholders: Seq::new(alloc),
        priority: 0,
        resources: Amounts::new(alloc),
        added: Moment(0),
        updated: Moment(0),
        runnable: false,
        batchable: false,
        accepts_messages: false,
        worker_running: None,
        time_running: None,
        batch: None,
        failures: Failures::new(alloc),
        policy: Policy::default(),
        retry: None,
        disabled_at: None,
        remove: None,
        expl: None,
        tracking_url: None,
        status_message: None,
        progress: None,
    })
}

fn name_it(alloc: Global, task: &mut TaskRec) -> Result<(), NoMemory> {
    task.family = Name::from(text(alloc, "Copy")?);
    task.module = Some(text(alloc, "module_a")?);
    for (name, value) in [("day", "today"), ("é", "")] {
        let name = text(alloc, name)?;
        let value = text(alloc, value)?;
        task.params.push((Name::from(name), value))?;
    }
    Ok(())
}

fn want_it(alloc: Global, task: &mut TaskRec) -> Result<(), NoMemory> {
    for dep in ["dep_a", "dep_b"] {
        let dep = text(alloc, dep)?;
        task.deps.push(TaskId::from(dep))?;
    }
    task.workers = worker_ids(alloc, &["worker_b", "worker_a"])?;
    task.stakeholders = worker_ids(alloc, &["holder_a"])?;
    task.resources = amounts(alloc, &[("cpu", 112), ("a", 0)])?;
    task.priority = i64::MIN;
    Ok(())
}

fn run_it(alloc: Global, task: &mut TaskRec) -> Result<(), NoMemory> {
    task.status = Status::BatchRunning;
    task.worker_running = Some(WorkerId::from(text(alloc, "runner_a")?));
    task.time_running = Some(Moment(117));
    task.batch = Some(text(alloc, "batch_a")?);
    task.failures = Failures::from_parts(
        Some(Moment(110)),
        vec![in alloc; Moment(111), Moment(111), Moment(118)]?,
    );
    task.policy = Policy {
        retry_count: 118,
        disable_window: 119,
        disable_hard_timeout: 120,
    };
    task.retry = Some(Moment(121));
    task.remove = Some(Moment(9_223_372_036_854_775_807));
    Ok(())
}

fn tell_of_it(alloc: Global, task: &mut TaskRec) -> Result<(), NoMemory> {
    task.expl = Some(text(alloc, "a \"quote\"\n\u{7f}é😀")?);
    task.tracking_url = Some(text(alloc, "url_a")?);
    task.status_message = Some(text(alloc, "")?);
    task.progress = Some(i64::MAX);
    Ok(())
}

// A task that runs in a batch, and has all that such a task can have.
fn full_task(alloc: Global) -> Result<TaskRec, NoMemory> {
    let mut task = bare_task(alloc, "task_a", 3)?;
    name_it(alloc, &mut task)?;
    want_it(alloc, &mut task)?;
    run_it(alloc, &mut task)?;
    tell_of_it(alloc, &mut task)?;
    task.added = Moment(115);
    task.updated = Moment(116);
    task.runnable = true;
    task.batchable = true;
    task.accepts_messages = true;
    Ok(task)
}

// A task that the scheduler disabled.
fn disabled_task(alloc: Global) -> Result<TaskRec, NoMemory> {
    let mut task = bare_task(alloc, "task_b", 7)?;
    task.status = Status::Disabled;
    task.disabled_at = Some(Moment(122));
    Ok(task)
}

fn full_worker(alloc: Global) -> Result<WorkerRec, NoMemory> {
    let id = text(alloc, "worker_b")?;
    let host = text(alloc, "host_a")?;
    let mut info = Seq::new(alloc);
    for (name, told) in [
        ("a", Info::Text(host)),
        ("b", Info::Number(-211)),
        ("c", Info::Truth(true)),
        ("d", Info::Truth(false)),
        ("e", Info::Null),
    ] {
        let name = text(alloc, name)?;
        info.push((Name::from(name), told))?;
    }
    Ok(WorkerRec {
        id: WorkerId::from(id),
        started: Moment(212),
        last_active: Moment(213),
        last_get_work: Some(Moment(214)),
        info,
        disabled: true,
    })
}

fn bare_worker(alloc: Global) -> Result<WorkerRec, NoMemory> {
    let id = text(alloc, "worker_c")?;
    Ok(WorkerRec {
        id: WorkerId::from(id),
        started: Moment(0),
        last_active: Moment(0),
        last_get_work: None,
        info: Seq::new(alloc),
        disabled: false,
    })
}

fn batcher(
    alloc: Global,
    family: &str,
    words: &[&str],
    size: Option<u64>,
) -> Result<BatcherRec, NoMemory> {
    let worker = text(alloc, "worker_c")?;
    let family = text(alloc, family)?;
    let mut names = Seq::new(alloc);
    for word in words {
        let word = text(alloc, *word)?;
        names.push(Name::from(word))?;
    }
    Ok(BatcherRec {
        worker: WorkerId::from(worker),
        family: Name::from(family),
        names,
        size,
    })
}

fn tasks(alloc: Global) -> Result<Seq<TaskRec>, NoMemory> {
    let mut tasks = Seq::new(alloc);
    tasks.push(full_task(alloc)?)?;
    tasks.push(disabled_task(alloc)?)?;
    Ok(tasks)
}

fn workers(alloc: Global) -> Result<Seq<WorkerRec>, NoMemory> {
    let mut workers = Seq::new(alloc);
    workers.push(full_worker(alloc)?)?;
    workers.push(bare_worker(alloc)?)?;
    Ok(workers)
}

fn batchers(alloc: Global) -> Result<Seq<BatcherRec>, NoMemory> {
    let mut batchers = Seq::new(alloc);
    batchers.push(batcher(alloc, "Copy", &["day", "é"], Some(311))?)?;
    batchers.push(batcher(alloc, "Move", &[], None)?)?;
    Ok(batchers)
}

// A state in which each field of each record is set somewhere, and absent somewhere.
pub(crate) fn full_state(alloc: Global) -> Result<State, NoMemory> {
    let mut state = State::empty(alloc, Settings::new());
    state.tasks = tasks(alloc)?;
    state.workers = workers(alloc)?;
    state.batchers = batchers(alloc)?;
    state.limits = amounts(alloc, &[("gpu", u32::MAX), ("db", 0)])?;
    state.paused = true;
    state.moment = Moment(412);
    state.next = 414;
    Ok(state)
}

fn encoded(alloc: Global, state: &State) -> Result<Text, NoMemory> {
    encode(alloc, state)
}

/// The text of the state in which a scheduler begins.
pub(crate) const EMPTY: &str =
    "{\"batchers\":[],\"limits\":{},\"moment\":0,\"next\":0,\"paused\":false,\"tasks\":[],\"version\":1,\"workers\":[]}\n";

/// The text of the state with one limit, which was set at the moment 5.
const ONE_LIMIT: &str =
    "{\"batchers\":[],\"limits\":{\"gpu\":2},\"moment\":5,\"next\":0,\"paused\":false,\"tasks\":[],\"version\":1,\"workers\":[]}\n";

/// The text of the full state.
pub(crate) const FULL: &str =
    "{\"batchers\":[{\"family\":\"Copy\",\"names\":[\"day\",\"\\u00e9\"],\"size\":311,\"worker\":\"worker_c\"},\
    {\"family\":\"Move\",\"names\":[],\"size\":null,\"worker\":\"worker_c\"}],\"limits\":{\"db\":0,\"gpu\":4294967295},\
    \"moment\":412,\"next\":414,\"paused\":true,\"tasks\":[{\"accepts_messages\":true,\"added\":115,\
    \"batch\":\"batch_a\",\"batchable\":true,\"deps\":[\"dep_a\",\"dep_b\"],\"disabled_at\":null,\
    \"expl\":\"a \\\"quote\\\"\\n\\u007f\\u00e9\\ud83d\\ude00\",\"failures\":{\"first\":110,\"moments\":[111,111,118]},\
    \"family\":\"Copy\",\"id\":\"task_a\",\"module\":\"module_a\",\"number\":3,\
    \"params\":{\"day\":\"today\",\"\\u00e9\":\"\"},\
    \"policy\":{\"disable_hard_timeout\":120,\"disable_window\":119,\"retry_count\":118},\
    \"priority\":-9223372036854775808,\"progress\":9223372036854775807,\"remove\":9223372036854775807,\
    \"resources\":{\"a\":0,\"cpu\":112},\"retry\":121,\"runnable\":true,\"stakeholders\":[\"holder_a\"],\
    \"status\":\"BATCH_RUNNING\",\"status_message\":\"\",\"time_running\":117,\"tracking_url\":\"url_a\",\
    \"updated\":116,\"worker_running\":\"runner_a\",\"workers\":[\"worker_b\",\"worker_a\"]},\
    {\"accepts_messages\":false,\"added\":0,\"batch\":null,\"batchable\":false,\"deps\":[],\"disabled_at\":122,\
    \"expl\":null,\"failures\":{\"first\":null,\"moments\":[]},\"family\":\"\",\"id\":\"task_b\",\"module\":null,\
    \"number\":7,\"params\":{},\"policy\":{\"disable_hard_timeout\":0,\"disable_window\":0,\"retry_count\":0},\
    \"priority\":0,\"progress\":null,\"remove\":null,\"resources\":{},\"retry\":null,\"runnable\":false,\
    \"stakeholders\":[],\"status\":\"DISABLED\",\"status_message\":null,\"time_running\":null,\
    \"tracking_url\":null,\"updated\":0,\"worker_running\":null,\"workers\":[]}],\"version\":1,\
    \"workers\":[{\"disabled\":true,\"id\":\"worker_b\",\
    \"info\":{\"a\":\"host_a\",\"b\":-211,\"c\":true,\"d\":false,\"e\":null},\"last_active\":213,\
    \"last_get_work\":214,\"started\":212},{\"disabled\":false,\"id\":\"worker_c\",\"info\":{},\"last_active\":0,\
    \"last_get_work\":null,\"started\":0}]}\n";

#[test]
fn the_empty_state_has_its_text(rt: HostRuntime) -> Result<(), Fail> {
    let state = State::empty(rt.alloc(), Settings::new());
    assert_eq!(rt; encoded(rt.alloc(), &state)?.as_str(), EMPTY);
    Ok(())
}

#[test]
fn one_limit_is_in_the_text(rt: HostRuntime) -> Result<(), Fail> {
    let mut state = State::empty(rt.alloc(), Settings::new());
    state.limits = amounts(rt.alloc(), &[("gpu", 2)])?;
    state.moment = Moment(5);
    assert_eq!(rt; encoded(rt.alloc(), &state)?.as_str(), ONE_LIMIT);
    Ok(())
}

#[test]
fn every_field_is_in_the_text(rt: HostRuntime) -> Result<(), Fail> {
    let state = full_state(rt.alloc())?;
    assert_eq!(rt; encoded(rt.alloc(), &state)?.as_str(), FULL);
    Ok(())
}

// The settings and the moment of the last pruning are in no text.
#[test]
fn settings_and_pruning_are_not_in_the_text(rt: HostRuntime) -> Result<(), Fail> {
    let mut state = full_state(rt.alloc())?;
    state.pruned = Some(Moment(400));
    state.settings.retry_delay = 1;
    state.settings.max_tasks = 1;
    assert_eq!(rt; encoded(rt.alloc(), &state)?.as_str(), FULL);
    Ok(())
}

// The text of what some bytes are decoded to; none where they spell no state.
fn reencoded(alloc: Global, bytes: &[u8]) -> Result<Option<Text>, NoMemory> {
    match decode(alloc, bytes, &Settings::new())? {
        Some(state) => Ok(Some(encode(alloc, &state)?)),
        None => Ok(None),
    }
}

fn assert_spells(rt: &impl Abort, alloc: Global, text: &str) -> Result<(), NoMemory> {
    let found = reencoded(alloc, text.as_bytes())?;
    let same = matches!(&found, Some(found) if found.as_str() == text);
    assert!(rt; same, "{text}");
    Ok(())
}

fn assert_spells_nothing(rt: &impl Abort, alloc: Global, bytes: &[u8]) -> Result<(), NoMemory> {
    let found = reencoded(alloc, bytes)?;
    assert!(rt; found.is_none(), "{bytes:?}");
    Ok(())
}

#[test]
fn each_text_is_read_back(rt: HostRuntime) -> Result<(), Fail> {
    for text in [EMPTY, ONE_LIMIT, FULL] {
        assert_spells(&rt, rt.alloc(), text)?;
    }
    let state = full_state(rt.alloc())?;
    let again = decode(rt.alloc(), FULL.as_bytes(), &Settings::new())?.expect(&rt, "the state");
    let shown = format!(in rt.alloc(); "{state:?}")?;
    assert_eq!(rt;
        format!(in rt.alloc(); "{again:?}")?.as_str(),
        shown.as_str()
    );
    Ok(())
}

#[test]
fn what_is_written_is_read(rt: HostRuntime) -> Result<(), Fail> {
    let state = full_state(rt.alloc())?;
    let again = written_is_read(rt.alloc(), &state)?.expect(&rt, "the state");
    assert_eq!(rt; again.tasks.len(), 2);
    assert_eq!(rt; again.next, 414);
    Ok(())
}

#[test]
fn one_byte_changed_spells_nothing(rt: HostRuntime) -> Result<(), Fail> {
    for at in 0..EMPTY.len() {
        let mut bytes = EMPTY.as_bytes().to_vec(rt.alloc())?;
        bytes[at] = if bytes[at] == b'x' { b'y' } else { b'x' };
        assert_spells_nothing(&rt, rt.alloc(), &bytes)?;
    }
    for end in 0..EMPTY.len() {
        assert_spells_nothing(&rt, rt.alloc(), &EMPTY.as_bytes()[..end])?;
    }
    Ok(())
}

/// What a text has, and what stands in its place in one that spells no state.
static CHANGES: [(&str, &str); 14] = [
    (",\"limits\"", ", \"limits\""),
    ("}\n", "}"),
    ("}\n", "}\n\n"),
    ("\"number\":3", "\"number\":03"),
    ("\"number\":3", "\"number\":3.0"),
    ("\"number\":3", "\"number\":3,\"number\":3"),
    ("\"number\":7", "\"number\":3"),
    ("\"id\":\"task_b\"", "\"id\":\"task_a\""),
    (
        "\"next\":414,\"paused\":true",
        "\"paused\":true,\"next\":414",
    ),
    (",\"module\":null", ""),
    ("\\u00e9", "é"),
    ("\"version\":1", "\"version\":2"),
    ("\"disabled_at\":122", "\"disabled_at\":413"),
    ("\"a\":0,\"cpu\":112", "\"cpu\":112,\"a\":0"),
];

#[test]
fn other_spellings_and_invalid_states_spell_nothing(rt: HostRuntime) -> Result<(), Fail> {
    for (old, new) in CHANGES {
        let (front, behind) = FULL.split_once(old).expect(&rt, old);
        let text = format!(in rt.alloc(); "{front}{new}{behind}")?;
        assert_spells_nothing(&rt, rt.alloc(), text.as_bytes())?;
    }
    assert_spells_nothing(&rt, rt.alloc(), b"\xff").map_err(Fail::from)
}

// Settings out of their ranges make no valid state.
#[test]
fn settings_are_those_that_are_given(rt: HostRuntime) -> Result<(), Fail> {
    let mut settings = Settings::new();
    settings.retry_delay = 7;
    let state = decode(rt.alloc(), EMPTY.as_bytes(), &settings)?.expect(&rt, "the state");
    assert_eq!(rt; state.settings.retry_delay, 7);
    assert!(rt; state.pruned.is_none());
    settings.max_tasks = 0;
    assert!(rt; decode(rt.alloc(), EMPTY.as_bytes(), &settings)?.is_none());
    Ok(())
}
