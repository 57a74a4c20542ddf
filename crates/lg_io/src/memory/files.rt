ghost use Rattle.std.specs.Prelude.{◌≡◌, ◌≢◌, ◌++◌, codes, ℕ, true, nat_le, IfOk, OnOk, OnErr, MatchOption, IfSome, ◌<◌, [], ◌∷◌, option_map};
ghost use Rattle.std.specs.FinMap as map;
ghost use Rattle.std.specs.VecDeque.{deque_len};
ghost use base.Stored.{Coded-set};
ghost use Rattle.lg_io.specs.Appearances.{IsNoneDue};
ghost use Rattle.lg_io.specs.Files.{HasGrown, present, file_map_code};

use super::shelf::leave;
use super::{FaultPlan, FileEvent, FileHistory, Shelf};
use crate::{FileRead, Files};
use lg_base::{Failed, NoMemory, Tally, Text};
use std::alloc::Global;
use std::collections::VecDeque;

/// A file that a child makes: before the call of this number, counted from 0, it is at `FRONT-luigi-tmp-BACK`, where
/// there is none.
#[derive(Debug, Drop)]
pub struct Appearance {
    pub call: u64,
    pub front: Text,
    pub back: Text,
    pub bytes: Vec<u8>,
}

/// Files in memory. A call fails where its plan says so, where it finds no memory, and where a file that is to appear
/// before it finds none; that file is lost.
#[derive(Drop)]
pub struct MemoryFiles<P> {
    shelf: Shelf,
    plan: P,
    coming: VecDeque<Appearance>,
    calls: u64,
    late: Tally,
    history: FileHistory,
    ghost is_present: { present history.maps ≡ shelf.log } by { Prim.hlevel (Coded-set file_map_code) },
}

impl<P: FaultPlan> MemoryFiles<P> {
    ghost use Rattle.lg_io.specs.Cause.{HasCause};
    ghost use Rattle.lg_io.specs.Appearances.{maps_with};
    ghost use Rattle.lg_io.specs.FileScript.{files_told, held_maps, calls_made, files_ahead, files_fail, file_faults, grown_maps, BeginsByScript};
    ghost use Rattle.std.specs.Prelude.{Some, IsTrue};

    /// No files. Those that appear are in the order of their calls.
    pub fn new(alloc: Global, coming: Vec<Appearance>, plan: P) -> MemoryFiles<P>
        ensures files { files_told result ≡ Some (record { maps = map.empty ∷ []; calls = [] }) }
        ensures faults { file_faults P.faults result ≡ P.faults plan }
        ensures ahead { files_ahead result ≡ coming.items }
        ensures fails { files_fail P.due result ≡ P.due plan }
        ensures count { calls_made result ≡ 0 }
    {
        let shelf = Shelf::new(alloc);
        let history = FileHistory::of(&shelf.log);
        MemoryFiles {
            shelf,
            plan,
            coming: VecDeque::from_vec(coming),
            calls: 0,
            late: Tally::none(),
            history,
        }
    }

    /// The bytes of a file, if it is there, with no call of the files.
    pub fn bytes(&self, path: &Text) -> Option<&[u8]>
        ensures { option_map (λ s. s.now) result ≡ map.get (present (held_maps self.now)) path.now }
    {
        self.shelf.log.get(path)
    }

    // Begins a call: the files of its time appear. Whether the call is to fail.
    fn begin(&mut self) -> bool
        ensures grown { HasGrown (held_maps self.old) (held_maps self.new) }
        ensures calls { self.new.history.calls ≡ self.old.history.calls }
        ensures cause { HasCause (file_faults P.faults self.old) (file_faults P.faults self.new) (IsTrue result) }
        ensures follows { BeginsByScript P.due self.old self.new result }
    {
        let is_due = self.plan.is_due();
        let call = self.calls;
        self.calls = call.saturating_add(1);
        if self.appear(call).is_err() {
            self.late = self.late.with_one_more();
            return true;
        }
        is_due
    }
}

impl<P> MemoryFiles<P> {
    ghost use Rattle.lg_io.specs.Appearances.{due_before, left_before, maps_with};
    ghost use Rattle.lg_io.specs.FileScript.{held_maps, files_ahead};

    // The files that are there before the call of this number appear, unless one finds no memory.
    fn appear(&mut self, call: u64) -> Result<(), NoMemory>
        ensures grown { HasGrown (held_maps self.old) (held_maps self.new) }
        ensures maps { OnOk result (held_maps self.new ≡ held_maps self.old
            ++ maps_with (present (held_maps self.old)) (due_before call (files_ahead self.old))) }
        ensures ahead { OnOk result (files_ahead self.new ≡ left_before call (files_ahead self.old)) }
        ensures due { OnErr result (due_before call (files_ahead self.old) ≢ []) }
        ensures calls { self.new.history.calls ≡ self.old.history.calls }
        ensures count { self.new.calls ≡ self.old.calls }
        ensures plan { self.new.plan ≡ self.old.plan }
        ensures late { self.new.late ≡ self.old.late }
        ensures wants { self.new.shelf.wants ≡ self.old.shelf.wants }
    {
        while let Some(file) = next_due(&mut self.coming, call) {
            self.place(file)?;
        }
        Ok(())
    }

    fn place(&mut self, file: Appearance) -> Result<(), NoMemory>
        ensures grown { HasGrown (held_maps self.old) (held_maps self.new) }
        ensures maps { OnOk result (held_maps self.new ≡ held_maps self.old
            ++ maps_with (present (held_maps self.old)) (file ∷ [])) }
        ensures calls { self.new.history.calls ≡ self.old.history.calls }
        ensures count { self.new.calls ≡ self.old.calls }
        ensures plan { self.new.plan ≡ self.old.plan }
        ensures late { self.new.late ≡ self.old.late }
        ensures wants { self.new.shelf.wants ≡ self.old.shelf.wants }
        ensures coming { self.new.coming ≡ self.old.coming }
    {
        let Appearance {
            call: _,
            front,
            back,
            bytes,
        } = file;
        let path = temporary_path(self.shelf.alloc, &front, &back)?;
        if self.shelf.log.get(&path).is_some() {
            return Ok(());
        }
        self.shelf.log.put(path, bytes)?;
        self.history = self.history.with(&self.shelf.log, &FileEvent::Appeared);
        Ok(())
    }
}

/// The next file, where it is to appear before the call of this number.
fn next_due(coming: &mut VecDeque<Appearance>, call: u64) -> Option<Appearance>
    ensures next { MatchOption result (coming.new.items ≡ coming.old.items)
        (λ file. coming.old.items ≡ file ∷ coming.new.items) }
    ensures due { IfSome result (λ file. nat_le file.call call ≡ true) }
    ensures none { MatchOption result (IsNoneDue call coming.new.items)
        (λ _. deque_len coming.new < deque_len coming.old) }
{
    let next = coming.front()?;
    if next.call > call {
        return None;
    }
    coming.pop_front()
}

fn temporary_path(alloc: Global, front: &Text, back: &Text) -> Result<Text, NoMemory>
    ensures { IfOk result (λ path. path ≡ front.now ++ codes "-luigi-tmp-" ++ back.now) }
{
    let mut path = String::from_str(alloc, front.as_str())?;
    path.push_str("-luigi-tmp-")?;
    path.push_str(back.as_str())?;
    Ok(Text::copied(alloc, path.as_str())?)
}

impl<P: FaultPlan> Files for MemoryFiles<P> {
    ghost use Rattle.std.specs.Prelude.{IsErr};
    ghost use Rattle.lg_io.specs.Cause.{HasCause};
    ghost use Rattle.lg_io.specs.Files.{TellsCall, read, create, append, close, rename, remove, exists, make_folder, read_answer, done_answer, exists_answer};
    ghost use Rattle.lg_io.specs.FileScript.{files_told, file_faults, CallsByScript};

    ghost files = { files_told };

    ghost faults = { file_faults P.faults };

    fn read(&mut self, alloc: Global, path: &Text) -> FileRead
        ensures told { TellsCall (files_told self.old) (read path.now) (read_answer result)
            (files_told self.new) }
        ensures cause { HasCause (file_faults P.faults self.old) (file_faults P.faults self.new)
            (result ≡ FileRead.Failed) }
        ensures follows { CallsByScript P.due self.old self.new (read_answer result) }
    {
        let fails = self.begin();
        let answer = self.shelf.read(fails, alloc, path);
        self.history = self
            .history
            .with(&self.shelf.log, &FileEvent::Read(path, &answer));
        answer
    }

    fn create(&mut self, path: &Text) -> Result<(), Failed>
        ensures told { TellsCall (files_told self.old) (create path.now) (done_answer result)
            (files_told self.new) }
        ensures cause { HasCause (file_faults P.faults self.old) (file_faults P.faults self.new) (IsErr result) }
        ensures follows { CallsByScript P.due self.old self.new (done_answer result) }
    {
        let fails = self.begin();
        let answer = self.shelf.create(fails, path);
        self.history = self
            .history
            .with(&self.shelf.log, &FileEvent::Create(path, &answer));
        answer
    }

    fn append(&mut self, path: &Text, piece: &[u8]) -> Result<(), Failed>
        ensures told { TellsCall (files_told self.old) (append path.now piece.now) (done_answer result)
            (files_told self.new) }
        ensures cause { HasCause (file_faults P.faults self.old) (file_faults P.faults self.new) (IsErr result) }
        ensures follows { CallsByScript P.due self.old self.new (done_answer result) }
    {
        let fails = self.begin();
        let answer = self.shelf.append(fails, path, piece);
        self.history = self
            .history
            .with(&self.shelf.log, &FileEvent::Append(path, piece, &answer));
        answer
    }

    fn close(&mut self, path: &Text) -> Result<(), Failed>
        ensures told { TellsCall (files_told self.old) (close path.now) (done_answer result)
            (files_told self.new) }
        ensures cause { HasCause (file_faults P.faults self.old) (file_faults P.faults self.new) (IsErr result) }
        ensures follows { CallsByScript P.due self.old self.new (done_answer result) }
    {
        let fails = self.begin();
        let answer = leave(fails);
        self.history = self
            .history
            .with(&self.shelf.log, &FileEvent::Close(path, &answer));
        answer
    }

    fn rename(&mut self, from: &Text, to: &Text) -> Result<(), Failed>
        ensures told { TellsCall (files_told self.old) (rename from.now to.now) (done_answer result)
            (files_told self.new) }
        ensures cause { HasCause (file_faults P.faults self.old) (file_faults P.faults self.new) (IsErr result) }
        ensures follows { CallsByScript P.due self.old self.new (done_answer result) }
    {
        let fails = self.begin();
        let answer = self.shelf.rename(fails, from, to);
        self.history = self
            .history
            .with(&self.shelf.log, &FileEvent::Rename(from, to, &answer));
        answer
    }

    fn remove(&mut self, path: &Text) -> Result<(), Failed>
        ensures told { TellsCall (files_told self.old) (remove path.now) (done_answer result)
            (files_told self.new) }
        ensures cause { HasCause (file_faults P.faults self.old) (file_faults P.faults self.new) (IsErr result) }
        ensures follows { CallsByScript P.due self.old self.new (done_answer result) }
    {
        let fails = self.begin();
        let answer = self.shelf.remove(fails, path);
        self.history = self
            .history
            .with(&self.shelf.log, &FileEvent::Remove(path, &answer));
        answer
    }

    fn exists(&mut self, path: &Text) -> Result<bool, Failed>
        ensures told { TellsCall (files_told self.old) (exists path.now) (exists_answer result)
            (files_told self.new) }
        ensures cause { HasCause (file_faults P.faults self.old) (file_faults P.faults self.new) (IsErr result) }
        ensures follows { CallsByScript P.due self.old self.new (exists_answer result) }
    {
        let fails = self.begin();
        let answer = self.shelf.exists(fails, path);
        self.history = self
            .history
            .with(&self.shelf.log, &FileEvent::Exists(path, &answer));
        answer
    }

    fn make_folder(&mut self, path: &Text) -> Result<(), Failed>
        ensures told { TellsCall (files_told self.old) (make_folder path.now) (done_answer result)
            (files_told self.new) }
        ensures cause { HasCause (file_faults P.faults self.old) (file_faults P.faults self.new) (IsErr result) }
        ensures follows { CallsByScript P.due self.old self.new (done_answer result) }
    {
        let fails = self.begin();
        let answer = leave(fails);
        self.history = self
            .history
            .with(&self.shelf.log, &FileEvent::MakeFolder(path, &answer));
        answer
    }
}
