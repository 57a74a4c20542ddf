//! The daemon: its words, its door, its life, and how it ends.
ghost use Rattle.std.specs.Prelude.{◌≡◌, ◌↔◌, ◌⊎◌, [], ◌∷◌, ℕ, map, length, All, List, Err, IsTrue, IsErrOf, IfOk, OnOk, OnErr};
ghost use Rattle.lg_io.specs.Cause.{HasCause};
ghost use Rattle.lg_io.specs.DoorSeen.{DoorSeen};
ghost use Rattle.lg_io.specs.Tells.{TellsOn};
ghost use Rattle.luigid.specs.declared.exit.Exit.{Exit};
ghost use Rattle.lg_desk.specs.declared.journal.Entry.{Entry};
ghost use Rattle.lg_calls.specs.Valid.{IsValidState};
ghost use Rattle.luigid.specs.Headline.{IsUntouched, IsRun, IsServedLife, Says, IsLine, the_bind, status_of, line_of};

use crate::audit::{Audit, LifeEnd};
use crate::exit::Exit;
use crate::lane::serve_lane;
use crate::life::Life;
use lg_base::{NoMemory, Text};
use lg_calls::{Engine, Settings, State};
use lg_io::{BindFault, Door, Files, Net, Numbers, Sink};
use lg_plain::Plain;
use std::alloc::Global;
use std::mem;
use std::sync::Wait;

/// The address that is listened to.
const ADDRESS: &str = "0.0.0.0";

/// The port that is listened to.
const PORT: u16 = 8082;

/// The one word of the command line.
const STDIO: &[u8] = b"--stdio";

/// Runs the daemon, and answers the status of its process: 0 after a `stop` or where the door closed; 2 for bad words; 4
/// where the door couldn't be bound; 7 where the door failed; 8 where the journal is full; 71 where memory ran out outside
/// a request. It may wait forever.
pub fn luigid<R: Wait, N: Net, F: Files, G: Numbers, U: Audit, O: Sink, S: Sink>(
    rt: &R,
    alloc: Global,
    words: &[Text],
    net: &mut N,
    doors: &mut Vec<N::Door>,
    files: &mut F,
    numbers: &mut G,
    audit: &mut U,
    out: &mut O,
    err: &mut S,
) -> u8
    requires { doors.old.items ≡ [] }
    ensures run { (exit : Exit) × (result ≡ status_of exit) × Says (S.taken err.old) (S.taken err.new) (S.faults err.old) (S.faults err.new) (line_of exit)
        × IsRun words.now
        record {
          binds = N.binds net.old;
          bind_faults = N.faults net.old;
          doors = [];
          lives = U.lives audit.old;
        }
        record {
          binds = N.binds net.new;
          bind_faults = N.faults net.new;
          doors = map (λ d. record { door = N.Door.door d; faults = N.Door.faults d; calls = N.Door.calls d }) doors.new.items;
          lives = U.lives audit.new;
        }
        exit }
    ensures files { files.new ≡ files.old }
    ensures numbers { numbers.new ≡ numbers.old }
    ensures out { out.new ≡ out.old }
    ensures rest { U.rest audit.new ≡ U.rest audit.old }
{
    run(rt, alloc, words, net, doors, audit).tell(err)
}

/// Reads the words, and serves where they are right.
fn run<R: Wait, N: Net, U: Audit>(
    rt: &R,
    alloc: Global,
    words: &[Text],
    net: &mut N,
    doors: &mut Vec<N::Door>,
    audit: &mut U,
) -> Exit
    requires { doors.old.items ≡ [] }
    ensures rest { U.rest audit.new ≡ U.rest audit.old }
    ensures run { IsRun words.now
        record {
          binds = N.binds net.old;
          bind_faults = N.faults net.old;
          doors = [];
          lives = U.lives audit.old;
        }
        record {
          binds = N.binds net.new;
          bind_faults = N.faults net.new;
          doors = map (λ d. record { door = N.Door.door d; faults = N.Door.faults d; calls = N.Door.calls d }) doors.new.items;
          lives = U.lives audit.new;
        }
        result }
{
    if !is_line(words) {
        return Exit::BadWords;
    }
    serve(rt, alloc, net, doors, audit)
}

/// Binds the door and serves one life, once the words are right.
fn serve<R: Wait, N: Net, U: Audit>(
    rt: &R,
    alloc: Global,
    net: &mut N,
    doors: &mut Vec<N::Door>,
    audit: &mut U,
) -> Exit
    requires { doors.old.items ≡ [] }
    ensures rest { U.rest audit.new ≡ U.rest audit.old }
    ensures run { (words : List (List ℕ)) → IsLine words → IsRun words
        record {
          binds = N.binds net.old;
          bind_faults = N.faults net.old;
          doors = [];
          lives = U.lives audit.old;
        }
        record {
          binds = N.binds net.new;
          bind_faults = N.faults net.new;
          doors = map (λ d. record { door = N.Door.door d; faults = N.Door.faults d; calls = N.Door.calls d }) doors.new.items;
          lives = U.lives audit.new;
        }
        result }
{
    match listen(alloc, net, doors) {
        Ok(()) => match serve_life::<R, Plain, N::Door, U>(rt, alloc, &mut doors[0], audit) {
            Ok(end) => Exit::from(end),
            Err(NoMemory) => Exit::NoMemory,
        },
        Err(BindFault::Failed) => Exit::CannotListen,
        Err(BindFault::NoMemory) => Exit::NoMemory,
    }
}

/// Whether the words are a command line of the daemon.
fn is_line(words: &[Text]) -> bool
    ensures { IsTrue result ↔ IsLine words.now }
{
    match words {
        [word] => word.bytes() == STDIO,
        _ => false,
    }
}

/// Binds the one door. At an error there is none; memory may run out before the call of `bind`.
fn listen<N: Net>(alloc: Global, net: &mut N, doors: &mut Vec<N::Door>) -> Result<(), BindFault>
    requires { doors.old.items ≡ [] }
    ensures told { ((result ≡ Err BindFault.NoMemory) × (N.binds net.new ≡ N.binds net.old)) ⊎ TellsOn (N.binds net.old) (N.binds net.new) (the_bind ∷ []) }
    ensures cause { HasCause (N.faults net.old) (N.faults net.new) (IsErrOf result BindFault.Failed) }
    ensures one { OnOk result (length doors.new.items ≡ 1) }
    ensures untouched { OnOk result (All (λ d. IsUntouched record { door = N.Door.door d; faults = N.Door.faults d; calls = N.Door.calls d }) doors.new.items) }
    ensures none { OnErr result (doors.new.items ≡ []) }
{
    let Ok(address) = Text::copied(alloc, ADDRESS) else {
        return Err(BindFault::NoMemory);
    };
    let bound = net.bind(alloc, &address, PORT, 1)?;
    mem::replace(doors, bound).destroy_empty();
    Ok(())
}

/// Serves one life over a door, and tells the audit of it. At an error no life began.
fn serve_life<R: Wait, E: Engine, D: Door, U: Audit>(
    rt: &R,
    alloc: Global,
    door: &mut D,
    audit: &mut U,
) -> Result<LifeEnd, NoMemory>
    requires { IsUntouched record { door = D.door door.old; faults = D.faults door.old; calls = D.calls door.old } }
    ensures ok { IfOk result (λ end. (journal : List Entry) × IsServedLife (U.lives audit.old) (U.lives audit.new)
        record { door = D.door door.new; faults = D.faults door.new; calls = D.calls door.new } record { journal = journal; end = end }) }
    ensures err { OnErr result ((U.lives audit.new ≡ U.lives audit.old) × (door.new ≡ door.old)) }
    ensures rest { U.rest audit.new ≡ U.rest audit.old }
{
    let base = State::empty(alloc, Settings::new());
    let engine: E = started(alloc, base.copy()?)?;
    audit.begins(alloc, &base)?;
    let mut life = Life::begin(alloc, engine);
    let end = serve_lane(rt, alloc, &mut life, 0, door);
    audit.ends(life.into_journal(), end);
    Ok(end)
}

/// An engine that begins with this state.
fn started<E: Engine>(alloc: Global, base: State) -> Result<E, NoMemory>
    requires { IsValidState base }
    ensures { IfOk result (λ engine. E.state engine ≡ base) }
{
    match E::start(alloc, base) {
        Ok(engine) => Ok(engine),
        Err((_, fault)) => Err(fault),
    }
}
