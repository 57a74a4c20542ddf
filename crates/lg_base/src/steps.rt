ghost use Rattle.std.specs.Prelude.{◌≡◌, ◌+◌};

use crate::Tally;
use std::marker::{Model, PhantomData};
use std::sync::ledger::Ledger;

/// A counter that no run pays for: only proofs read it, and it takes no memory. Contracts see its number. The ledger
/// `L` is its name in the types of those who count.
pub struct Steps<L: Ledger> {
    ledger: PhantomData<L>,
    counted: Tally,
}

impl<L: Ledger> Model for Steps<L> {
    ghost use Rattle.std.specs.Prelude.{ℕ};

    ghost Value = { ℕ };

    ghost view = { λ s. s.counted.met };
}

impl<L: Ledger> Steps<L> {
    /// No step was made.
    pub fn new() -> Steps<L>
        ensures { result ≡ 0 }
    {
        Steps {
            ledger: PhantomData,
            counted: Tally::none(),
        }
    }

    /// One step more.
    pub fn step(&mut self)
        ensures { self.new ≡ self.old + 1 }
    {
        self.counted = self.counted.with_one_more();
    }
}

impl<L: Ledger> Drop for Steps<L> {
    fn drop(self) {
        let Self {
            ledger: _,
            counted: _,
        } = self;
    }
}

#[cfg(test)]
mod tests {
    use super::*;
    use std::marker::Brand;
    use std::mem::size_of;

    /// Two steps of any ledger.
    fn walk_twice<L: Ledger>(steps: &mut Steps<L>)
        ensures { steps.new ≡ steps.old + 2 }
    {
        steps.step();
        steps.step();
    }

    #[test]
    fn steps_take_no_memory(rt: HostRuntime) {
        let mut steps = Steps::<Brand>::new();
        walk_twice(&mut steps);
        assert_eq!(rt; size_of::<Steps<Brand>>(), 0);
    }
}
