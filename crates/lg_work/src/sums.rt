//! The amounts of many tasks together.
ghost use Rattle.std.specs.Prelude.{◌≡◌, ◌+◌, ◌<◌, ◌^◌, ◌∷◌, ◌++◌, [], ℕ, List, find, if◌then◌else◌, position, OnOk};
ghost use Rattle.std.specs.Option.{option_copied};
ghost use Rattle.lg_calls.specs.Order.{is_same};
ghost use Rattle.lg_work.specs.Sums.{sum_in};

use lg_base::{Amounts, Name, NoMemory};
use lg_calls::TaskRec;
use std::alloc::Global;

/// How much there is of each name together.
#[derive(Drop)]
pub(crate) struct Sums {
    /// Each name once.
    pairs: Vec<(Name, u64)>,
}

impl Sums {
    ghost use Rattle.lg_base.specs.Amounts.{amount_of};
    ghost use Rattle.lg_work.specs.Sums.{sum_of, HasRoom};

    /// Nothing of any name. It takes no memory.
    pub fn new(alloc: Global) -> Sums
        ensures { sum_of result ≡ (λ name. 0) }
    {
        Sums {
            pairs: Vec::new(alloc),
        }
    }

    /// How much there is of a name: 0 where nothing was added.
    pub fn get(&self, name: &Name) -> u64
        ensures { result ≡ sum_of self.now name.now }
    {
        match pair_of(self.pairs.as_slice(), name) {
            Some(pair) => pair.1,
            None => 0,
        }
    }

    // Adds amounts. Where there is no memory some of them are added, and others aren't.
    fn add(&mut self, more: &Amounts) -> Result<(), NoMemory>
        requires { HasRoom self.old }
        ensures added { OnOk result (sum_of self.new ≡ (λ name. sum_of self.old name + amount_of more.now name)) }
        ensures small { OnOk result ((name : List ℕ) → amount_of more.now name < 2 ^ 32) }
    {
        for (name, amount) in more.entries() {
            add_one(&mut self.pairs, name, *amount)?;
        }
        Ok(())
    }

    /// Adds what a task needs. Where there is no memory some of it is added, and some isn't.
    pub fn add_task(&mut self, task: &TaskRec) -> Result<(), NoMemory>
        requires { HasRoom self.old }
        ensures added { OnOk result (sum_of self.new ≡ (λ name. sum_of self.old name + amount_of task.now.resources name)) }
        ensures small { OnOk result ((name : List ℕ) → amount_of task.now.resources name < 2 ^ 32) }
    {
        self.add(&task.resources)
    }
}

// Adds the amount of one name.
fn add_one(pairs: &mut Vec<(Name, u64)>, name: &Name, amount: u32) -> Result<(), NoMemory>
    requires { sum_in pairs.old.items name.now + amount < 2 ^ 64 }
    ensures { OnOk result ((other : List ℕ) → sum_in pairs.new.items other
        ≡ sum_in pairs.old.items other + (if is_same other name.now then amount else 0)) }
{
    match place_of(pairs.as_slice(), name) {
        Some(place) => {
            raise(&mut pairs[place], amount);
            Ok(())
        }
        None => append(pairs, name, amount),
    }
}

fn raise(pair: &mut (Name, u64), amount: u32)
    requires { pair.old.1 + amount < 2 ^ 64 }
    ensures { pair.new ≡ (pair.old.0, pair.old.1 + amount) }
{
    pair.1 += u64::from(amount);
}

fn append(pairs: &mut Vec<(Name, u64)>, name: &Name, amount: u32) -> Result<(), NoMemory>
    ensures { OnOk result (pairs.new.items ≡ pairs.old.items ++ (name.now, amount) ∷ []) }
{
    let name = name.clone()?;
    Ok(pairs.push((name, u64::from(amount)))?)
}

// The pair of a name, if there is one.
fn pair_of<'a>(pairs: &'a [(Name, u64)], name: &Name) -> Option<&'a (Name, u64)>
    ensures { option_copied result ≡ find (λ pair. is_same name.now pair.0) pairs.now }
{
    pairs.iter().find(|pair| name.cmp(&pair.0).is_eq())
}

// Its place.
fn place_of(pairs: &[(Name, u64)], name: &Name) -> Option<usize>
    ensures { result ≡ position (λ pair. is_same name.now pair.0) pairs.now }
{
    pairs.iter().position(|pair| name.cmp(&pair.0).is_eq())
}
