//! The values that records are made of.
ghost use Rattle.std.specs.Int.{w64};
ghost use Rattle.std.specs.Prelude.{◌<◌, ◌^◌, All, FitsSigned, IfSome};
ghost use Rattle.lg_json.specs.Tree.{truth, int, str};
ghost use Rattle.lg_snapshot.specs.Fitting.{AreAmounts, IsSignedInfo};
ghost use Rattle.lg_snapshot.specs.Trees as spec;

use crate::writing::{Output, Written};
use lg_base::{Amounts, Moment, Name, NoMemory, Seq, TaskId, Text, WorkerId};
use lg_calls::{Info, Status};

impl Written for bool {
    ghost tree = { truth };

    fn write(&self, output: &mut Output) -> Result<(), NoMemory> {
        output.word(if *self { "true" } else { "false" })
    }
}

impl Written for u32 {
    ghost tree = { spec.number };

    ghost fits = { λ n. n < 2 ^ 32 };

    fn write(&self, output: &mut Output) -> Result<(), NoMemory> {
        output.word(itoa::Buffer::new().format(*self))
    }
}

impl Written for u64 {
    ghost tree = { spec.number };

    fn write(&self, output: &mut Output) -> Result<(), NoMemory> {
        output.word(itoa::Buffer::new().format(*self))
    }
}

impl Written for i64 {
    ghost tree = { int };

    ghost fits = { FitsSigned w64 };

    fn write(&self, output: &mut Output) -> Result<(), NoMemory> {
        output.word(itoa::Buffer::new().format(*self))
    }
}

impl Written for Moment {
    ghost tree = { spec.moment };

    fn write(&self, output: &mut Output) -> Result<(), NoMemory> {
        self.0.write(output)
    }
}

impl Written for Text {
    ghost tree = { str };

    fn write(&self, output: &mut Output) -> Result<(), NoMemory> {
        output.quoted(self.as_str())
    }
}

impl Written for Name {
    ghost tree = { str };

    fn write(&self, output: &mut Output) -> Result<(), NoMemory> {
        output.quoted(self.as_str())
    }
}

impl Written for TaskId {
    ghost tree = { str };

    fn write(&self, output: &mut Output) -> Result<(), NoMemory> {
        output.quoted(self.as_str())
    }
}

impl Written for WorkerId {
    ghost tree = { str };

    fn write(&self, output: &mut Output) -> Result<(), NoMemory> {
        output.quoted(self.as_str())
    }
}

impl Written for Status {
    ghost tree = { spec.status };

    fn write(&self, output: &mut Output) -> Result<(), NoMemory> {
        output.quoted(self.word())
    }
}

impl Written for Info {
    ghost tree = { spec.info };

    ghost fits = { IsSignedInfo };

    fn write(&self, output: &mut Output) -> Result<(), NoMemory> {
        match self {
            Info::Text(text) => text.write(output),
            Info::Number(number) => number.write(output),
            Info::Truth(truth) => truth.write(output),
            Info::Null => output.word("null"),
        }
    }
}

impl Written for Amounts {
    ghost tree = { spec.amounts };

    ghost fits = { AreAmounts };

    fn write(&self, output: &mut Output) -> Result<(), NoMemory> {
        output.object(self.entries())
    }
}

/// An absent value is null.
impl<T: Written> Written for Option<T> {
    ghost tree = { spec.maybe T.tree };

    ghost fits = { λ value. IfSome value T.fits };

    fn write(&self, output: &mut Output) -> Result<(), NoMemory> {
        match self {
            None => output.word("null"),
            Some(value) => value.write(output),
        }
    }
}

impl<T: Written> Written for Seq<T> {
    ghost tree = { spec.listed T.tree };

    ghost fits = { All T.fits };

    fn write(&self, output: &mut Output) -> Result<(), NoMemory> {
        output.list(self.as_slice())
    }
}

impl<T: Written> Written for &[T] {
    ghost tree = { λ items. spec.listed T.tree items.now };

    ghost fits = { λ items. All T.fits items.now };

    fn write(&self, output: &mut Output) -> Result<(), NoMemory> {
        output.list(*self)
    }
}

/// Values by name, which are an object.
#[derive(Drop)]
pub(crate) struct ByName<'a, T>(pub(crate) &'a [(Name, T)]);

impl<T: Written> Written for ByName<'_, T> {
    ghost tree = { λ pairs. spec.by_name T.tree pairs.0.now };

    ghost fits = { λ pairs. All (λ pair. T.fits pair.1) pairs.0.now };

    fn write(&self, output: &mut Output) -> Result<(), NoMemory> {
        output.object(self.0)
    }
}
