ghost use Rattle.std.specs.Prelude.{◌≡◌, [], ◌∷◌, ◌++◌, length, OnOk, OnErr, IsTrue, ◌↔◌};
ghost use Rattle.std.specs.List.{AllZip};

use crate::faults::NoMemory;
use std::alloc::{AllocError, Global};
use std::marker::Model;

/// A sequence of values. Contracts see the list of them, and not how much room there is for more.
#[derive(Debug, Drop)]
pub struct Seq<T> {
    items: Vec<T>,
}

impl<T> Model for Seq<T> {
    ghost use Rattle.std.specs.Prelude.{List};

    ghost Value = { List T };

    ghost view = { λ seq. seq.items.items };
}

impl<T> Seq<T> {
    /// No values. It takes no memory.
    pub fn new(alloc: Global) -> Seq<T>
        ensures { result ≡ [] }
    {
        Seq {
            items: Vec::new(alloc),
        }
    }

    /// The values of a `Vec`. It takes no memory.
    pub fn from_vec(items: Vec<T>) -> Seq<T>
        ensures { result ≡ items.items }
    {
        Seq { items }
    }

    /// The values in a `Vec`. It takes no memory.
    pub fn into_vec(self) -> Vec<T>
        ensures { result.items ≡ self }
    {
        self.items
    }

    /// The values, lent.
    pub fn as_slice(&self) -> &[T]
        ensures { result.now ≡ self.now }
    {
        &self.items
    }

    /// How many there are.
    pub fn len(&self) -> usize
        ensures { result ≡ length self.now }
    {
        self.items.len()
    }

    /// Whether there is none.
    pub fn is_empty(&self) -> bool
        ensures { IsTrue result ↔ (self.now ≡ []) }
    {
        self.items.is_empty()
    }
}

impl<T: Drop> Seq<T> {
    /// Puts a value behind the others. Where there is no memory nothing changes, and the value is gone.
    pub fn push(&mut self, item: T) -> Result<(), NoMemory>
        ensures ok { OnOk result (self.new ≡ self.old ++ item ∷ []) }
        ensures err { OnErr result (self.new ≡ self.old) }
    {
        Ok(self.items.push(item)?)
    }
}

impl<T: Clone> Clone for Seq<T> {
    ghost is_clone = { λ old new. AllZip T.is_clone old new };

    fn clone(&self) -> Result<Seq<T>, AllocError> {
        let items = self.items.clone()?;
        Ok(Seq { items })
    }
}

#[cfg(test)]
mod tests {
    use super::*;
    use crate::names::Name;
    use std::test::Fail;

    #[test]
    fn keeps_its_values_in_order(rt: HostRuntime) -> Result<(), Fail> {
        let mut names = Seq::new(rt.alloc());
        assert!(rt; names.is_empty());
        for name in ["cpu", "a", "cpu"] {
            names.push(Name::text(rt.alloc(), name.as_bytes())?)?;
        }
        let copy = names.clone()?;
        assert_eq!(rt; copy.len(), 3);
        let again = Seq::from_vec(names.into_vec());
        for ((name, copied), expected) in again
            .as_slice()
            .iter()
            .zip(copy.as_slice())
            .zip(["cpu", "a", "cpu"])
        {
            assert_eq!(rt; (name.as_str(), copied.as_str()), (expected, expected));
        }
        Ok(())
    }
}
