ghost use Rattle.std.specs.Prelude.{◌≡◌, ◌↔◌, List, ℕ, Option, IsTrue, OnOk, OnErr, length};
ghost use Rattle.std.specs.Ordering.{nat_cmp};
ghost use Rattle.std.specs.Cmp.Lexicographic.{slice_cmp};
ghost use Rattle.std.specs.List.Sorted.{IsSearchInRange, IsBinarySearchResult};
ghost use Rattle.std.specs.FinMap.{empty, get, insert, entries, from_sorted};
ghost use Rattle.lg_base.specs.Amounts.{amount_of, limit_of, AnswersAs, Fits};
ghost use Rattle.lg_base.specs.Names.{AreInOrder};

use crate::faults::NoMemory;
use crate::names::Name;
use std::alloc::{AllocError, Global};
use std::marker::Model;

/// Amounts by name, in the order of the names' bytes, each name once.
#[derive(Debug, Drop)]
pub struct Amounts {
    pairs: Vec<(Name, u32)>,
}

impl Model for Amounts {
    ghost use Rattle.std.specs.Prelude.{T};
    ghost use Rattle.std.specs.Ordering.{nat_cmp};
    ghost use Rattle.std.specs.Cmp.Lexicographic.{slice_cmp};
    ghost use Rattle.std.specs.FinMap as map;
    ghost use Rattle.lg_base.specs.Amounts.{AmountsByName, amounts_code};

    ghost Value = { AmountsByName };

    ghost coded = { amounts_code };

    ghost view = { λ a. map.from_sorted a.pairs.items };

    ghost invariant = { λ a. T (map.is_sorted (slice_cmp nat_cmp) a.pairs.items) };
}

impl Amounts {
    /// No amounts. It takes no memory.
    pub fn new(alloc: Global) -> Amounts
        ensures { result ≡ empty }
    {
        Amounts {
            pairs: Vec::new(alloc),
        }
    }

    /// The amounts of pairs that stand in the order of their names' bytes, each name once. It takes no memory.
    pub fn from_sorted(pairs: Vec<(Name, u32)>) -> Amounts
        requires { AreInOrder pairs.items }
        ensures { result ≡ from_sorted pairs.items }
    {
        Amounts { pairs }
    }

    /// Each name with its amount, in the order of the names' bytes.
    pub fn entries(&self) -> &[(Name, u32)]
        ensures { result.now ≡ entries self.now }
    {
        &self.pairs
    }

    /// How much there is of a name, from 0 to 2^32 - 1: 0 where the name is absent.
    pub fn get(&self, name: &Name) -> u32
        ensures { result ≡ amount_of self.now name.now }
    {
        self.find(name).unwrap_or(0)
    }

    /// What these limits allow of a name, from 0 to 2^32 - 1: 1 where the name is absent, 0 where it is there with 0.
    pub fn limit_of(&self, name: &Name) -> u32
        ensures { result ≡ limit_of self.now name.now }
    {
        self.find(name).unwrap_or(1)
    }

    /// Sets the amount of a name, whether or not the name is there. Where there is no memory nothing changes.
    pub fn put(&mut self, name: Name, amount: u32) -> Result<(), NoMemory>
        ensures ok { OnOk result (self.new ≡ insert self.old name amount) }
        ensures err { OnErr result (self.new ≡ self.old) }
    {
        match place_of(&self.pairs, &name) {
            Ok(at) => {
                self.pairs[at].1 = amount;
                Ok(())
            }
            Err(at) => Ok(self.pairs.insert(at, (name, amount))?),
        }
    }

    /// Whether these amounts fit beside what is taken: of each name here, its amount and what is `taken` of it are
    /// together at most what `limits` allows. An answer is promised where `taken` gives a name the same number each
    /// time. It takes no memory.
    pub fn fits<F: Fn(&Name) -> u64>(&self, taken: F, limits: &Amounts) -> bool
        requires { F.IsAlwaysCallable taken }
        ensures { (taken_of : List ℕ → ℕ) → AnswersAs (F.post taken) taken_of → (IsTrue result ↔ Fits self.now taken_of limits.now) }
    {
        for (name, need) in self.entries() {
            if taken(name).saturating_add(u64::from(*need)) > u64::from(limits.limit_of(name)) {
                return false;
            }
        }
        true
    }

    // The amount of a name that is there.
    fn find(&self, name: &Name) -> Option<u32>
        ensures { result ≡ get self.now name.now }
    {
        match place_of(&self.pairs, name) {
            Ok(at) => Some(self.pairs[at].1),
            Err(_) => None,
        }
    }
}

impl Clone for Amounts {
    ghost is_clone = { λ old new. new ≡ old };

    fn clone(&self) -> Result<Amounts, AllocError> {
        let pairs = self.pairs.clone()?;
        Ok(Amounts { pairs })
    }
}

// Where a name is among sorted pairs, or where it would go.
fn place_of(pairs: &[(Name, u32)], name: &Name) -> Result<usize, usize>
    ensures bound { IsSearchInRange result (length pairs.now) }
    ensures position { IsBinarySearchResult (λ pair. slice_cmp nat_cmp pair.0 name.now) pairs.now result }
{
    pairs.binary_search_by(|pair| pair.0.cmp(name))
}

#[cfg(test)]
mod tests {
    use super::*;
    use std::test::Fail;

    #[test]
    fn keep_the_last_amount_in_the_order_of_bytes(rt: HostRuntime) -> Result<(), Fail> {
        let mut amounts = Amounts::new(rt.alloc());
        for (name, amount) in [("cpu", 1), ("a", 2), ("é", 3), ("Z", 4), ("cpu", 5)] {
            amounts.put(Name::text(rt.alloc(), name.as_bytes())?, amount)?;
        }
        let copy = amounts.clone()?;
        let expected = [("Z", 4), ("a", 2), ("cpu", 5), ("é", 3)];
        assert_eq!(rt; copy.entries().len(), expected.len());
        for ((name, amount), (expected_name, expected_amount)) in copy
            .entries()
            .iter()
            .zip(expected)
        {
            assert_eq!(rt; (name.as_str(), *amount), (expected_name, expected_amount));
        }
        let absent = Name::text(rt.alloc(), b"b")?;
        assert_eq!(rt; (amounts.get(&absent), amounts.limit_of(&absent)), (0, 1));
        Ok(())
    }

    #[test]
    fn fit_up_to_the_limit(rt: HostRuntime) -> Result<(), Fail> {
        let rows = [
            // need, taken, limit, fits
            (1, 0, None, true),
            (1, 1, None, false),
            (0, 1, None, true),
            (0, 0, Some(0), true),
            (1, 0, Some(0), false),
            (3, 4, Some(7), true),
            (3, 5, Some(7), false),
            (u32::MAX, 0, Some(u32::MAX), true),
            (0, u64::MAX, Some(u32::MAX), false),
            (1, u64::MAX, Some(u32::MAX), false),
        ];
        for (need, taken, limit, fits) in rows {
            let cpu = Name::text(rt.alloc(), b"cpu")?;
            let mut limits = Amounts::new(rt.alloc());
            if let Some(limit) = limit {
                limits.put(cpu.clone()?, limit)?;
            }
            let mut needs = Amounts::new(rt.alloc());
            needs.put(cpu, need)?;
            assert_eq!(rt; needs.fits(|_| taken, &limits), fits);
        }
        Ok(())
    }
}
