ghost use Rattle.std.specs.Prelude.{◌≡◌, ℕ, Option, IsErr};
ghost use Rattle.lg_io.specs.Cause.{HasCause};
ghost use Rattle.lg_io.specs.Files.{FilesTold, TellsCall, read, create, append, close, rename, remove, exists, make_folder, read_answer, done_answer, exists_answer};

use lg_base::{Failed, Text};
use std::alloc::Global;

/// The answer of files to a read.
#[derive(Drop)]
pub enum FileRead {
    /// The bytes of the file.
    Found(Vec<u8>),
    /// There is no such file.
    Absent,
    /// The read failed.
    Failed,
    /// There is no memory for the bytes.
    NoMemory,
}

/// Files by their paths.
pub trait Files {
    /// The maps of files that it held and the calls with their answers, where it tells.
    ghost files: { Self → Option FilesTold };

    /// How many of its calls met a fault.
    ghost faults: { Self → ℕ };

    /// The bytes of a file.
    fn read(&mut self, alloc: Global, path: &Text) -> FileRead
        ensures told { TellsCall (files self.old) (read path.now) (read_answer result) (files self.new) }
        ensures cause { HasCause (faults self.old) (faults self.new) (result ≡ FileRead.Failed) };

    /// Makes an empty file, or empties the one that is there. Where it fails only that file may have changed.
    fn create(&mut self, path: &Text) -> Result<(), Failed>
        ensures told { TellsCall (files self.old) (create path.now) (done_answer result) (files self.new) }
        ensures cause { HasCause (faults self.old) (faults self.new) (IsErr result) };

    /// Puts a piece behind the bytes of a file that is there. Where it fails only that file may have changed.
    fn append(&mut self, path: &Text, piece: &[u8]) -> Result<(), Failed>
        ensures told { TellsCall (files self.old) (append path.now piece.now) (done_answer result) (files self.new) }
        ensures cause { HasCause (faults self.old) (faults self.new) (IsErr result) };

    /// Ends the writing of a file. Where it fails only that file may have changed.
    fn close(&mut self, path: &Text) -> Result<(), Failed>
        ensures told { TellsCall (files self.old) (close path.now) (done_answer result) (files self.new) }
        ensures cause { HasCause (faults self.old) (faults self.new) (IsErr result) };

    /// Moves a file to another path, over a file that is there. Where it fails nothing has changed.
    fn rename(&mut self, from: &Text, to: &Text) -> Result<(), Failed>
        ensures told { TellsCall (files self.old) (rename from.now to.now) (done_answer result) (files self.new) }
        ensures cause { HasCause (faults self.old) (faults self.new) (IsErr result) };

    /// Takes a file away; there may be none. Where it fails nothing has changed.
    fn remove(&mut self, path: &Text) -> Result<(), Failed>
        ensures told { TellsCall (files self.old) (remove path.now) (done_answer result) (files self.new) }
        ensures cause { HasCause (faults self.old) (faults self.new) (IsErr result) };

    /// Whether there is a file.
    fn exists(&mut self, path: &Text) -> Result<bool, Failed>
        ensures told { TellsCall (files self.old) (exists path.now) (exists_answer result) (files self.new) }
        ensures cause { HasCause (faults self.old) (faults self.new) (IsErr result) };

    /// Makes a folder and the folders above it; they may be there.
    fn make_folder(&mut self, path: &Text) -> Result<(), Failed>
        ensures told { TellsCall (files self.old) (make_folder path.now) (done_answer result) (files self.new) }
        ensures cause { HasCause (faults self.old) (faults self.new) (IsErr result) };
}
