ghost use Rattle.std.specs.Prelude.{◌≡◌, ◌↔◌, IsErr, IsTrue};
ghost use Rattle.std.specs.FinMap as map;
ghost use Rattle.lg_io.specs.Cause.{FailsBy};
ghost use Rattle.lg_io.specs.Files.{Does, read, create, append, rename, remove, exists, read_answer, done_answer, exists_answer};

use super::FileLog;
use crate::FileRead;
use lg_base::{Failed, Tally, Text};
use std::alloc::Global;

/// Files in memory, and how many of their calls found no memory, or not the file that they named. Each call is told
/// whether it is to fail.
#[derive(Drop)]
pub struct Shelf {
    pub alloc: Global,
    pub log: FileLog,
    pub wants: Tally,
}

impl Shelf {
    /// No files.
    pub fn new(alloc: Global) -> Shelf
        ensures log { result.log ≡ map.empty }
        ensures wants { result.wants.met ≡ 0 }
    {
        Shelf {
            alloc,
            log: FileLog::new(alloc),
            wants: Tally::none(),
        }
    }

    /// The bytes of a file.
    pub fn read(&self, fails: bool, alloc: Global, path: &Text) -> FileRead
        ensures does { Does (read path.now) (read_answer result) self.now.log self.now.log }
        ensures fails { (result ≡ FileRead.Failed) ↔ IsTrue fails }
    {
        if fails {
            return FileRead::Failed;
        }
        let Some(bytes) = self.log.get(path) else {
            return FileRead::Absent;
        };
        match Vec::from_slice(alloc, bytes) {
            Ok(copy) => FileRead::Found(copy),
            Err(_) => FileRead::NoMemory,
        }
    }

    /// Makes an empty file, or empties one.
    pub fn create(&mut self, fails: bool, path: &Text) -> Result<(), Failed>
        ensures does { Does (create path.now) (done_answer result) self.old.log self.new.log }
        ensures cause { FailsBy fails self.old.wants.met self.new.wants.met (IsErr result) }
    {
        if fails {
            return Err(Failed);
        }
        if self.log.create(self.alloc, path).is_err() {
            self.wants = self.wants.with_one_more();
            return Err(Failed);
        }
        Ok(())
    }

    /// Puts a piece behind the bytes of a file that is there.
    pub fn append(&mut self, fails: bool, path: &Text, piece: &[u8]) -> Result<(), Failed>
        ensures does { Does (append path.now piece.now) (done_answer result) self.old.log self.new.log }
        ensures cause { FailsBy fails self.old.wants.met self.new.wants.met (IsErr result) }
    {
        if fails {
            return Err(Failed);
        }
        if self.log.append(self.alloc, path, piece).is_err() {
            self.wants = self.wants.with_one_more();
            return Err(Failed);
        }
        Ok(())
    }

    /// Moves a file that is there to another path.
    pub fn rename(&mut self, fails: bool, from: &Text, to: &Text) -> Result<(), Failed>
        ensures does { Does (rename from.now to.now) (done_answer result) self.old.log self.new.log }
        ensures cause { FailsBy fails self.old.wants.met self.new.wants.met (IsErr result) }
    {
        if fails {
            return Err(Failed);
        }
        if self.log.rename(self.alloc, from, to).is_err() {
            self.wants = self.wants.with_one_more();
            return Err(Failed);
        }
        Ok(())
    }

    /// Takes a file away, if it is there.
    pub fn remove(&mut self, fails: bool, path: &Text) -> Result<(), Failed>
        ensures does { Does (remove path.now) (done_answer result) self.old.log self.new.log }
        ensures cause { FailsBy fails self.old.wants.met self.new.wants.met (IsErr result) }
    {
        if fails {
            return Err(Failed);
        }
        if self.log.remove(self.alloc, path).is_err() {
            self.wants = self.wants.with_one_more();
            return Err(Failed);
        }
        Ok(())
    }

    /// Whether there is a file.
    pub fn exists(&self, fails: bool, path: &Text) -> Result<bool, Failed>
        ensures does { Does (exists path.now) (exists_answer result) self.now.log self.now.log }
        ensures fails { IsErr result ↔ IsTrue fails }
    {
        if fails {
            return Err(Failed);
        }
        Ok(self.log.get(path).is_some())
    }
}

/// A call that leaves the files as they are.
pub fn leave(fails: bool) -> Result<(), Failed>
    ensures { IsErr result ↔ IsTrue fails }
{
    if fails {
        return Err(Failed);
    }
    Ok(())
}
