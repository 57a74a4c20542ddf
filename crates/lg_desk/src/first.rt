//! What clauses see of the engine that was handed in.
ghost use Rattle.std.specs.Prelude.{◌≡◌};
ghost use Rattle.std.specs.Borrow.{ftrue};

use std::marker::{Model, PhantomData};

/// An engine as clauses see it, as it was when it was handed in. It has no bytes and owns nothing, so it may go to another
/// thread wherever the engine may.
pub struct First<E> {
    marker: PhantomData<E>,
    pub ghost value: { E },
}

impl<E> Model for First<E> {
    ghost also_owns = { λ _. ftrue };
}

impl<E> First<E> {
    /// This engine, as it is now.
    pub(crate) fn of(engine: &E) -> First<E>
        ensures { result.value ≡ engine.now }
    {
        let _ = engine;
        First {
            marker: PhantomData,
        }
    }
}

// Nothing of the engine is in it.
unsafe impl<E> Send for First<E> {}

impl<E> Drop for First<E> {
    fn drop(self) {
        let Self { marker: _ } = self;
    }
}
