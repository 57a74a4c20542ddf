ghost use Rattle.std.specs.Prelude.{◌≡◌, ◌++◌, [], List, ℕ, IfOk, OnOk, OnErr, option_map};
ghost use Rattle.std.specs.FinMap as map;

use lg_base::{Failed, NoMemory, Text};
use std::alloc::Global;
use std::collections::VecDeque;
use std::marker::Model;

/// A file was written, or taken away.
#[derive(Debug, Drop)]
pub struct Edit {
    path: Text,
    bytes: Option<Vec<u8>>,
}

/// Files in memory, as the log of their edits with the newest first. Contracts see the map of the files.
#[derive(Debug, Drop)]
pub struct FileLog {
    edits: VecDeque<Edit>,
}

impl Model for FileLog {
    ghost use Rattle.lg_io.specs.Files.{FileMap, file_map_code};

    ghost Value = { FileMap };

    ghost coded = { file_map_code };

    ghost use Rattle.lg_io.specs.MemoryFiles.{files_of};

    ghost view = { λ l. files_of l.edits.items };
}

impl FileLog {
    ghost use Rattle.lg_io.specs.Files.{Does, append, rename, done_answer};

    /// No files. It takes no memory.
    pub fn new(alloc: Global) -> FileLog
        ensures { result ≡ map.empty }
    {
        FileLog {
            edits: VecDeque::new(alloc),
        }
    }

    /// The bytes of a file, if it is there.
    pub fn get(&self, path: &Text) -> Option<&[u8]>
        ensures { option_map (λ s. s.now) result ≡ map.get self.now path.now }
    {
        for edit in &self.edits {
            if path.cmp(&edit.path).is_eq() {
                return match &edit.bytes {
                    Some(bytes) => Some(bytes.as_slice()),
                    None => None,
                };
            }
        }
        None
    }

    /// Writes a file, over one that is there. Where there is no memory nothing changes.
    pub fn put(&mut self, path: Text, bytes: Vec<u8>) -> Result<(), NoMemory>
        ensures ok { OnOk result (self.new ≡ map.insert self.old path bytes.items) }
        ensures err { OnErr result (self.new ≡ self.old) }
    {
        self.edits.push_front(Edit {
            path,
            bytes: Some(bytes),
        })?;
        Ok(())
    }

    /// Makes an empty file, or empties the one that is there. Where there is no memory nothing changes.
    pub fn create(&mut self, alloc: Global, path: &Text) -> Result<(), NoMemory>
        ensures ok { OnOk result (self.new ≡ map.insert self.old path.now []) }
        ensures err { OnErr result (self.new ≡ self.old) }
    {
        let path = Text::copied(alloc, path.as_str())?;
        self.put(path, Vec::new(alloc))
    }

    /// Puts a piece behind the bytes of a file. Where there is no such file, or no memory, nothing changes.
    pub fn append(&mut self, alloc: Global, path: &Text, piece: &[u8]) -> Result<(), Failed>
        ensures { Does (append path.now piece.now) (done_answer result) self.old self.new }
    {
        let Some(bytes) = self.get(path) else {
            return Err(Failed);
        };
        let Ok(longer) = joined(alloc, bytes, piece) else {
            return Err(Failed);
        };
        let Ok(path) = Text::copied(alloc, path.as_str()) else {
            return Err(Failed);
        };
        self.put(path, longer).map_err(|_| Failed)
    }

    /// Takes a file away; there may be none. Where there is no memory nothing changes.
    pub fn remove(&mut self, alloc: Global, path: &Text) -> Result<(), NoMemory>
        ensures ok { OnOk result (self.new ≡ map.remove self.old path.now) }
        ensures err { OnErr result (self.new ≡ self.old) }
    {
        let path = Text::copied(alloc, path.as_str())?;
        self.edits.push_front(Edit { path, bytes: None })?;
        Ok(())
    }

    /// Moves a file to another path. Where there is no such file, or no memory, nothing changes.
    pub fn rename(&mut self, alloc: Global, from: &Text, to: &Text) -> Result<(), Failed>
        ensures { Does (rename from.now to.now) (done_answer result) self.old self.new }
    {
        let Some(bytes) = self.get(from) else {
            return Err(Failed);
        };
        let Ok(copy) = Vec::from_slice(alloc, bytes) else {
            return Err(Failed);
        };
        let Ok(from) = Text::copied(alloc, from.as_str()) else {
            return Err(Failed);
        };
        let Ok(to) = Text::copied(alloc, to.as_str()) else {
            return Err(Failed);
        };
        self.take_and_put(from, to, copy).map_err(|_| Failed)
    }

    fn take_and_put(&mut self, from: Text, to: Text, bytes: Vec<u8>) -> Result<(), NoMemory>
        ensures ok { OnOk result (self.new ≡ map.insert (map.remove self.old from) to bytes.items) }
        ensures err { OnErr result (self.new ≡ self.old) }
    {
        self.edits.reserve(2)?;
        self.edits.push_front_reserved(Edit {
            path: from,
            bytes: None,
        });
        self.edits.push_front_reserved(Edit {
            path: to,
            bytes: Some(bytes),
        });
        Ok(())
    }
}

fn joined(alloc: Global, front: &[u8], back: &[u8]) -> Result<Vec<u8>, NoMemory>
    ensures { IfOk result (λ v. v.items ≡ front.now ++ back.now) }
{
    let mut bytes = Vec::from_slice(alloc, front)?;
    bytes.extend_from_slice(back)?;
    Ok(bytes)
}
