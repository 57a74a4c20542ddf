//! The values that replies are made of.
ghost use Rattle.std.specs.Option.{ForSome};
ghost use Rattle.std.specs.Prelude.{◌^◌, ◌<◌, All};
ghost use Rattle.lg_json.specs.Tree.{null, truth, int, str};
ghost use Rattle.lg_calls.specs.Views.Trees as spec;

use crate::builders::{Shown, list_of, object_of};
use lg_base::{Amounts, Moment, Name, NoMemory, Seq, TaskId, Text, WorkerId};
use lg_calls::Status;
use lg_json::Out;
use std::alloc::Global;

impl Shown for bool {
    ghost tree = { truth };

    fn show(&self, _alloc: Global) -> Result<Out, NoMemory> {
        Ok(Out::Truth(*self))
    }
}

impl Shown for u32 {
    ghost tree = { spec.number };

    fn show(&self, _alloc: Global) -> Result<Out, NoMemory> {
        Ok(Out::Int(i64::from(*self)))
    }
}

impl Shown for u64 {
    ghost tree = { spec.number };

    ghost fits = { λ n. n < 2 ^ 63 };

    fn show(&self, _alloc: Global) -> Result<Out, NoMemory> {
        Ok(Out::Int(*self as i64))
    }
}

impl Shown for i64 {
    ghost tree = { int };

    fn show(&self, _alloc: Global) -> Result<Out, NoMemory> {
        Ok(Out::Int(*self))
    }
}

impl Shown for Moment {
    ghost tree = { spec.moment };

    ghost fits = { λ when. when.0 < 2 ^ 63 };

    fn show(&self, alloc: Global) -> Result<Out, NoMemory> {
        self.0.show(alloc)
    }
}

impl Shown for Text {
    ghost tree = { str };

    fn show(&self, _alloc: Global) -> Result<Out, NoMemory> {
        Ok(Out::Str(self.clone()?))
    }
}

impl Shown for Name {
    ghost tree = { str };

    fn show(&self, alloc: Global) -> Result<Out, NoMemory> {
        Ok(Out::Str(Text::copied(alloc, self.as_str())?))
    }
}

impl Shown for TaskId {
    ghost tree = { str };

    fn show(&self, alloc: Global) -> Result<Out, NoMemory> {
        Ok(Out::Str(Text::copied(alloc, self.as_str())?))
    }
}

impl Shown for WorkerId {
    ghost tree = { str };

    fn show(&self, alloc: Global) -> Result<Out, NoMemory> {
        Ok(Out::Str(Text::copied(alloc, self.as_str())?))
    }
}

impl Shown for Status {
    ghost tree = { spec.status };

    fn show(&self, alloc: Global) -> Result<Out, NoMemory> {
        Ok(Out::Str(Text::copied(alloc, self.word())?))
    }
}

impl Shown for Amounts {
    ghost tree = { spec.amounts };

    fn show(&self, alloc: Global) -> Result<Out, NoMemory> {
        object_of(alloc, self.entries())
    }
}

/// An absent value is null.
impl<T: Shown> Shown for Option<T> {
    ghost tree = { spec.maybe T.tree };

    ghost fits = { λ value. ForSome value T.fits };

    fn show(&self, alloc: Global) -> Result<Out, NoMemory> {
        match self {
            None => Ok(Out::Null),
            Some(value) => value.show(alloc),
        }
    }
}

impl<T: Shown> Shown for Seq<T> {
    ghost tree = { spec.listed T.tree };

    ghost fits = { All T.fits };

    fn show(&self, alloc: Global) -> Result<Out, NoMemory> {
        list_of(alloc, self.as_slice())
    }
}

/// Values by name, which are an object.
#[derive(Drop)]
pub(crate) struct ByName<'a, T>(pub(crate) &'a [(Name, T)]);

impl<T: Shown> Shown for ByName<'_, T> {
    ghost tree = { λ pairs. spec.by_name T.tree pairs.0.now };

    ghost fits = { λ pairs. All (λ pair. T.fits pair.1) pairs.0.now };

    fn show(&self, alloc: Global) -> Result<Out, NoMemory> {
        object_of(alloc, self.0)
    }
}

/// A value that is lent.
impl<T: Shown> Shown for &T {
    ghost tree = { λ value. T.tree value.now };

    ghost fits = { λ value. T.fits value.now };

    fn show(&self, alloc: Global) -> Result<Out, NoMemory> {
        let value: &T = *self;
        value.show(alloc)
    }
}

/// Nothing, where a value could be.
#[derive(Clone, Copy)]
pub(crate) struct Null;

impl Shown for Null {
    ghost tree = { λ _. null };

    fn show(&self, _alloc: Global) -> Result<Out, NoMemory> {
        Ok(Out::Null)
    }
}

/// Words that are lent.
#[derive(Drop)]
pub(crate) struct Words<'a>(pub(crate) &'a str);

impl Shown for Words<'_> {
    ghost tree = { λ words. str words.0.now };

    fn show(&self, alloc: Global) -> Result<Out, NoMemory> {
        Ok(Out::Str(Text::copied(alloc, self.0)?))
    }
}
