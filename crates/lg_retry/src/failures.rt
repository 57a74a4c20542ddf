ghost use Rattle.std.specs.Prelude.{◌≡◌, OnOk, OnErr, IsOk};
ghost use Rattle.lg_retry.specs.Failures.{HasRoom, no_failures, add_failure, failure_count, is_excessive};

use crate::policy::Policy;
use lg_base::{Moment, NoMemory};
use std::alloc::{AllocError, Global};
use std::marker::Model;

/// What is remembered of a task's failures: the moment of the first, and the moments of those that may still count.
///
/// In clauses it is its `history`, which is what others compare, and its `capacity`, the number of moments that it
/// holds before it takes more memory.
#[derive(Debug, Drop)]
pub struct Failures {
    first: Option<Moment>,
    moments: Vec<Moment>,
}

impl Model for Failures {
    ghost use Rattle.std.specs.Vec.{vec_capacity};
    ghost use Rattle.lg_retry.specs.Failures.{Kept};

    ghost Value = { Kept };

    ghost view = { λ a. record { history = record { first = a.first; moments = a.moments.items }; capacity = vec_capacity a.moments } };
}

impl Failures {
    /// No failures. It takes no memory.
    pub fn new(alloc: Global) -> Failures
        ensures { result.history ≡ no_failures }
    {
        Failures {
            first: None,
            moments: Vec::new(alloc),
        }
    }

    /// The failures with this first moment and these others, as a stored state spells them. It takes no memory.
    pub fn from_parts(first: Option<Moment>, moments: Vec<Moment>) -> Failures
        ensures first { result.history.first ≡ first }
        ensures moments { result.history.moments ≡ moments.items }
    {
        Failures { first, moments }
    }

    /// The moment of the first failure, and the moments that are remembered, oldest first. It takes no memory.
    pub fn into_parts(self) -> (Option<Moment>, Vec<Moment>)
        ensures first { result.0 ≡ self.history.first }
        ensures moments { result.1.items ≡ self.history.moments }
    {
        let Failures { first, moments } = self;
        (first, moments)
    }

    /// The moment of the first failure since all were last forgotten.
    pub fn first(&self) -> Option<Moment>
        ensures { result ≡ self.now.history.first }
    {
        self.first
    }

    /// The moments that are remembered, in the order in which they were added.
    pub fn moments(&self) -> &[Moment]
        ensures { result.now ≡ self.now.history.moments }
    {
        &self.moments
    }

    /// Makes room for one moment more, so that the next `add` takes no memory. Where there is no memory nothing changes.
    pub fn reserve(&mut self) -> Result<(), NoMemory>
        ensures same { self.new.history ≡ self.old.history }
        ensures ok { OnOk result (HasRoom self.new) }
        ensures err { OnErr result (self.new ≡ self.old) }
        ensures has_room { HasRoom self.old → IsOk result }
    {
        Ok(self.moments.reserve(1)?)
    }

    /// One failure more, at `now`. It is the first where there was none; moments that are outside the policy's window
    /// at `now` are dropped. There has to be room for one moment, as `reserve` makes it: no memory is taken. Where
    /// `now` isn't before the last moment, what is dropped never changes an answer (`laws`).
    pub fn add(&mut self, now: Moment, policy: &Policy)
        requires { HasRoom self.old }
        ensures history { self.new.history ≡ add_failure self.old.history now policy.now }
        ensures in_place { self.new.capacity ≡ self.old.capacity }
    {
        self.moments
            .retain(|moment| policy.is_inside_window(now, *moment));
        self.moments.push_reserved(now);
        self.first = Some(self.first.unwrap_or(now));
    }

    /// Forgets all failures. The memory is kept.
    pub fn forget(&mut self)
        ensures history { self.new.history ≡ no_failures }
        ensures in_place { self.new.capacity ≡ self.old.capacity }
    {
        self.first = None;
        self.moments.clear();
    }

    /// How many failures are inside the policy's window at `now`: those that aren't before `now` less the window, or
    /// before 0 where the window is longer.
    pub fn count(&self, now: Moment, policy: &Policy) -> u64
        ensures { result ≡ failure_count self.now.history.moments now policy.now }
    {
        self.moments
            .iter()
            .filter(|moment| policy.is_inside_window(now, **moment))
            .count() as u64
    }

    /// Whether the task has failed too often at `now`: its first failure is at least the hard timeout ago, or at least
    /// `retry_count` failures are inside the window. A task without a first failure has failed too often only where
    /// the policy allows no failure at all.
    pub fn excessive(&self, now: Moment, policy: &Policy) -> bool
        ensures { result ≡ is_excessive self.now.history now policy.now }
    {
        match self.first {
            None => policy.retry_count == 0,
            Some(first) => {
                let timed_out = now.0 >= first.0 && now.0 - first.0 >= policy.disable_hard_timeout;
                timed_out || self.count(now, policy) >= policy.retry_count
            }
        }
    }
}

impl Clone for Failures {
    ghost is_clone = { λ old new. new.history ≡ old.history };

    fn clone(&self) -> Result<Failures, AllocError> {
        let moments = self.moments.clone()?;
        Ok(Failures {
            first: self.first,
            moments,
        })
    }
}
