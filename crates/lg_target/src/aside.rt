ghost use Rattle.std.specs.Prelude.{◌≡◌, IfOk, IfErr, IsErr, IsErrOf};
ghost use Rattle.lg_io.specs.Cause.{HasCause};
ghost use Rattle.lg_io.specs.Files.{TellsCall, rename, remove, done_answer};
ghost use Rattle.lg_target.specs.Begin.{NamesByDraw, MakesFolder};
ghost use Rattle.lg_target.specs.Naming.{AsideFile, IsNamed, aside_name, aside_of, folder_above};

use crate::fault::AsideFault;
use crate::folder::folder_above;
use lg_base::{Failed, Text};
use lg_io::{Files, Numbers};
use std::alloc::{AllocError, Global};
use std::marker::Model;

/// A file that is written aside, to be moved to its path once it is whole. Contracts see the path and the file's own
/// name, which is the path, `-luigi-tmp-` and ten digits.
#[derive(Debug, Drop)]
pub struct Aside {
    path: Text,
    name: Text,
}

impl Model for Aside {
    ghost Value = { AsideFile };

    ghost view = { λ a. record { path = a.path; name = a.name } };

    ghost invariant = { λ a. IsNamed (record { path = a.path; name = a.name }) };
}

impl Aside {
    /// Begins a file aside for this path: draws one number, whose last ten digits end the file's name, and makes the
    /// folder above the path where the path has a `/` behind its first byte. The file itself is not made. `Files` where the
    /// folder could not be made; `NoMemory` before the files were asked anything. The number is drawn in any case.
    pub fn begin<F: Files, G: Numbers>(
        alloc: Global,
        files: &mut F,
        numbers: &mut G,
        path: &Text,
    ) -> Result<Aside, AsideFault>
        ensures name { NamesByDraw path.now (G.draws numbers.old) (G.draws numbers.new) result }
        ensures folder { MakesFolder (folder_above path.now) (F.files files.old) (F.files files.new) result }
        ensures cause { HasCause (F.faults files.old) (F.faults files.new) (IsErrOf result AsideFault.Files) }
    {
        let number = numbers.draw();
        let aside = Aside::of_number(alloc, path, number)?;
        make_folder_above(alloc, files, path)?;
        Ok(aside)
    }

    /// The file aside of a path and a number.
    fn of_number(alloc: Global, path: &Text, number: u64) -> Result<Aside, AllocError>
        ensures { IfOk result (λ aside. aside ≡ aside_of path.now number) }
    {
        let name = name_of(alloc, path.as_str(), number)?;
        let path = Text::copied(alloc, path.as_str())?;
        Ok(Aside { path, name })
    }

    /// The path of the file aside.
    pub fn name(&self) -> &Text
        ensures is { result.now ≡ self.now.name }
        ensures named { IsNamed self.now }
    {
        &self.name
    }

    /// Moves the file aside to its path, by one rename. It takes no memory. Where the rename fails no file has changed, and
    /// the caller has the file aside again, to commit or to abandon.
    pub fn commit<F: Files>(self, files: &mut F) -> Result<(), (Aside, Failed)>
        ensures told { TellsCall (F.files files.old) (rename self.name self.path) (done_answer result) (F.files files.new) }
        ensures cause { HasCause (F.faults files.old) (F.faults files.new) (IsErr result) }
        ensures back { IfErr result (λ handed. handed.0 ≡ self) }
    {
        match files.rename(&self.name, &self.path) {
            Ok(()) => Ok(()),
            Err(fault) => Err((self, fault)),
        }
    }

    /// Takes the file aside away; it may not be there. It takes no memory. Where that fails no file has changed, and the
    /// caller has the file aside again.
    pub fn abandon<F: Files>(self, files: &mut F) -> Result<(), (Aside, Failed)>
        ensures told { TellsCall (F.files files.old) (remove self.name) (done_answer result) (F.files files.new) }
        ensures cause { HasCause (F.faults files.old) (F.faults files.new) (IsErr result) }
        ensures back { IfErr result (λ handed. handed.0 ≡ self) }
    {
        match files.remove(&self.name) {
            Ok(()) => Ok(()),
            Err(fault) => Err((self, fault)),
        }
    }
}

/// The name of the file aside of a path and a number.
fn name_of(alloc: Global, path: &str, number: u64) -> Result<Text, AllocError>
    ensures { IfOk result (λ name. name ≡ aside_name path.now number) }
{
    let digits = number % 10_000_000_000;
    let name = format!(in alloc; "{path}-luigi-tmp-{digits:010}")?;
    Ok(Text::from_string(name))
}

/// Makes the folder above a path, if there is one.
fn make_folder_above<F: Files>(alloc: Global, files: &mut F, path: &Text) -> Result<(), AsideFault>
    ensures folder { MakesFolder (folder_above path.now) (F.files files.old) (F.files files.new) result }
    ensures cause { HasCause (F.faults files.old) (F.faults files.new) (IsErrOf result AsideFault.Files) }
{
    let folder = folder_above(path.as_str());
    if folder.is_empty() {
        return Ok(());
    }
    let folder = Text::copied(alloc, folder)?;
    files.make_folder(&folder)?;
    Ok(())
}
