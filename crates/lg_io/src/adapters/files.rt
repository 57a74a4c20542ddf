ghost use Rattle.std.specs.Prelude.{◌≡◌, ◌^◌, ◌-◌, ◌<◌, ◌≤◌, None, IfSome, IsErr, IfOk, vec_len};
ghost use Rattle.lg_io.specs.Adapters.{IsFoundWithin, file_read_of};
ghost use Rattle.lg_io.specs.Cause.{HasCause};

use crate::{FileRead, Files};
use lg_base::{Failed, Tally, Text};
use std::alloc::Global;
use std::fs::{self, OpenOptions};
use std::io::{self, ErrorKind, Read, Write};
use std::rt;

/// The most bytes of a file that is read.
const MOST_BYTES: u64 = 1 << 30;

/// The files of the system, each by its path. They don't tell what they hold.
#[derive(Drop)]
pub struct DiskFiles<R> {
    runtime: R,
    faults: Tally,
}

impl<R: rt::Files> DiskFiles<R> {
    /// The files of this runtime.
    pub fn new(runtime: R) -> DiskFiles<R>
        ensures { ⟦<DiskFiles<R> as Files>⟧.faults result ≡ 0 }
    {
        DiskFiles {
            runtime,
            faults: Tally::none(),
        }
    }

    // Counts a call that failed.
    fn counted<T>(&mut self, answer: io::Result<T>) -> Result<T, Failed>
        ensures { HasCause self.old.faults.met self.new.faults.met (IsErr result) }
    {
        match answer {
            Ok(value) => Ok(value),
            Err(_) => {
                self.faults = self.faults.with_one_more();
                Err(Failed)
            }
        }
    }
}

impl<R: rt::Files> Files for DiskFiles<R> {
    ghost files = { λ _. None };

    ghost faults = { λ f. f.faults.met };

    fn read(&mut self, alloc: Global, path: &Text) -> FileRead
        ensures cause { HasCause self.old.faults.met self.new.faults.met (result ≡ FileRead.Failed) }
        ensures most { IsFoundWithin MOST_BYTES result }
    {
        let answer = file_read_of(read_file(&self.runtime, alloc, path.as_str()));
        if let FileRead::Failed = answer {
            self.faults = self.faults.with_one_more();
        }
        answer
    }

    fn create(&mut self, path: &Text) -> Result<(), Failed> {
        let made = fs::create(&self.runtime, path.as_str()).map(|_| ());
        self.counted(made)
    }

    fn append(&mut self, path: &Text, piece: &[u8]) -> Result<(), Failed> {
        let written = append_to(&self.runtime, path.as_str(), piece);
        self.counted(written)
    }

    fn close(&mut self, _path: &Text) -> Result<(), Failed> {
        Ok(())
    }

    fn rename(&mut self, from: &Text, to: &Text) -> Result<(), Failed> {
        let moved = fs::rename(&self.runtime, from.as_str(), to.as_str());
        self.counted(moved)
    }

    fn remove(&mut self, path: &Text) -> Result<(), Failed> {
        match fs::remove_file(&self.runtime, path.as_str()) {
            Err(error) if error.kind() == ErrorKind::NotFound => Ok(()),
            removed => self.counted(removed),
        }
    }

    fn exists(&mut self, path: &Text) -> Result<bool, Failed> {
        let answer = fs::exists(&self.runtime, path.as_str());
        self.counted(answer)
    }

    fn make_folder(&mut self, path: &Text) -> Result<(), Failed> {
        let made = fs::create_dir_all(&self.runtime, path.as_str());
        self.counted(made)
    }
}

/// The answer that stands for what came of reading a file.
fn file_read_of(read: io::Result<Vec<u8>>) -> FileRead
    ensures { result ≡ file_read_of read }
{
    match read {
        Ok(bytes) => FileRead::Found(bytes),
        Err(error) => match error.kind() {
            ErrorKind::NotFound => FileRead::Absent,
            ErrorKind::OutOfMemory => FileRead::NoMemory,
            _ => FileRead::Failed,
        },
    }
}

/// All bytes of a file that has no more than `MOST_BYTES`.
fn read_file(files: &impl rt::Files, alloc: Global, path: &str) -> io::Result<Vec<u8>>
    ensures { IfOk result (λ bytes. vec_len bytes ≤ MOST_BYTES) }
{
    read_within(alloc, fs::open(files, path)?, MOST_BYTES)
}

/// All bytes of a reader that has no more than `most`. Of a longer one it reads one byte more than that, and the error
/// is `FileTooLarge`.
pub(super) fn read_within<R: Read>(alloc: Global, reader: R, most: u64) -> io::Result<Vec<u8>>
where
    R: Drop,
    requires { most < 2 ^ 64 - 1 }
    ensures within { IfOk result (λ bytes. vec_len bytes ≤ most) }
    ensures whole { IfOk result (λ bytes. IfSome (R.remaining reader) (λ all. bytes.items ≡ all)) }
{
    let mut bytes = Vec::new(alloc);
    reader.take(most + 1).read_to_end(&mut bytes)?;
    if bytes.len() as u64 > most {
        return Err(io::Error::from(ErrorKind::FileTooLarge));
    }
    Ok(bytes)
}

/// Writes a piece behind the bytes of a file that is there.
fn append_to(files: &impl rt::Files, path: &str, piece: &[u8]) -> io::Result<()> {
    OpenOptions::new()
        .append(true)
        .open(files, path)?
        .write_all(piece)
}
