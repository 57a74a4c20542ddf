ghost use Rattle.std.specs.Prelude.{◌≡◌, List, [], ◌∷◌, ◌++◌};
ghost use Rattle.std.specs.Borrow.{ftrue};
ghost use Rattle.std.specs.Coded.{coded_list};
ghost use Rattle.lg_io.specs.Files.{FileMap, file_map_code, AnsweredCall, present};

use super::FileLog;
use crate::FileRead;
use lg_base::{Failed, Text};
use std::marker::Model;

/// What the files held and were asked. Only proofs read it: it takes no memory.
#[derive(Drop)]
pub struct FileHistory {
    pub ghost maps: { List FileMap } by { coded_list file_map_code },
    pub ghost calls: { List AnsweredCall },
}

impl Model for FileHistory {
    ghost also_owns = { λ _. ftrue };
}

/// What left the files as they are now: a file that appeared, or a call and its answer.
#[derive(Clone, Copy)]
pub enum FileEvent<'a> {
    Appeared,
    Read(&'a Text, &'a FileRead),
    Create(&'a Text, &'a Result<(), Failed>),
    Append(&'a Text, &'a [u8], &'a Result<(), Failed>),
    Close(&'a Text, &'a Result<(), Failed>),
    Rename(&'a Text, &'a Text, &'a Result<(), Failed>),
    Remove(&'a Text, &'a Result<(), Failed>),
    Exists(&'a Text, &'a Result<bool, Failed>),
    MakeFolder(&'a Text, &'a Result<(), Failed>),
}

impl FileHistory {
    ghost use Rattle.lg_io.specs.FileEvent.{calls_of};

    /// The history of files that nobody called.
    pub fn of(_files: &FileLog) -> FileHistory
        ensures { (result.maps ≡ _files.now ∷ []) × (result.calls ≡ []) }
    {
        FileHistory {}
    }

    /// The history after an event, with the files that it left.
    pub fn with(&self, _files: &FileLog, _event: &FileEvent<'_>) -> FileHistory
        ensures { (result.maps ≡ self.now.maps ++ _files.now ∷ []) × (result.calls ≡ self.now.calls ++ calls_of _event.now)
            × (present result.maps ≡ _files.now) }
    {
        FileHistory {}
    }
}
