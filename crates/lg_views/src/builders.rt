//! Building the trees of replies: objects and lists.
ghost use Rattle.std.specs.Prelude.{◌≡◌, [], ◌∷◌, ◌++◌, All, IfOk, OnOk};
ghost use Rattle.lg_json.specs.Tree.{tree_of};
ghost use Rattle.lg_calls.specs.Views.Trees.{record_of, listed, by_name};

use lg_base::{Name, NoMemory, Text};
use lg_json::Out;
use std::alloc::Global;

/// A value that has a place in a reply.
pub(crate) trait Shown {
    ghost use Rattle.lg_json.specs.Tree.{Tree};

    /// What stands for the value.
    ghost tree: { Self → Tree };

    /// The value can be shown: its numbers are below 2^63.
    ghost fits: { Self → Type 0 } = { λ _. Unit {0} };

    /// What stands for the value. Refused only where there is no memory.
    fn show(&self, alloc: Global) -> Result<Out, NoMemory>
        requires { fits self.now }
        ensures { IfOk result (λ out. tree_of out ≡ tree self.now) };
}

/// An object that is being built, with the fields that it has so far.
#[derive(Drop)]
pub(crate) struct Object {
    alloc: Global,
    fields: Vec<(Name, Out)>,
}

impl Object {
    ghost use Rattle.lg_views.specs.Fields.{fields_in};

    /// No fields yet. It takes no memory.
    #[tactic(auto, unfolding(crate::specs::Fields::fields_in))]
    pub(crate) fn new(alloc: Global) -> Object
        ensures { fields_in result ≡ [] }
    {
        Object {
            alloc,
            fields: Vec::new(alloc),
        }
    }

    /// Puts a field behind the others. Refused only where there is no memory.
    pub(crate) fn put<T: Shown>(&mut self, name: &str, value: &T) -> Result<(), NoMemory>
        requires { T.fits value.now }
        ensures { OnOk result (fields_in self.new ≡ fields_in self.old ++ (name.now, T.tree value.now) ∷ []) }
    {
        let out = value.show(self.alloc)?;
        let name = Name::from(Text::copied(self.alloc, name)?);
        Ok(self.fields.push((name, out))?)
    }

    /// The object. It takes no memory.
    pub(crate) fn into_out(self) -> Out
        ensures { tree_of result ≡ record_of (fields_in self) }
    {
        let Object { alloc: _, fields } = self;
        Out::Object(fields)
    }
}

/// A list of values. Refused only where there is no memory.
pub(crate) fn list_of<T: Shown>(alloc: Global, items: &[T]) -> Result<Out, NoMemory>
    requires { All T.fits items.now }
    ensures { IfOk result (λ out. tree_of out ≡ listed T.tree items.now) }
{
    let mut outs = Vec::with_capacity(alloc, items.len())?;
    for item in items {
        let out = item.show(alloc)?;
        outs.push(out)?;
    }
    Ok(Out::List(outs))
}

/// An object of values by name. Refused only where there is no memory.
pub(crate) fn object_of<T: Shown>(alloc: Global, pairs: &[(Name, T)]) -> Result<Out, NoMemory>
    requires { All (λ pair. T.fits pair.1) pairs.now }
    ensures { IfOk result (λ out. tree_of out ≡ by_name T.tree pairs.now) }
{
    let mut object = Object::new(alloc);
    for (name, value) in pairs {
        object.put(name.as_str(), value)?;
    }
    Ok(object.into_out())
}
