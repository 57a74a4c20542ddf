ghost use Rattle.std.specs.Prelude.{◌≡◌, ℕ, ◌+◌};
ghost use Rattle.std.specs.Borrow.{ftrue};

use std::marker::Model;

/// How many of something were met. Only proofs read it: it takes no memory, and so it never stands still.
#[derive(Drop)]
pub struct Tally {
    pub ghost met: { ℕ },
}

impl Model for Tally {
    ghost also_owns = { λ _. ftrue };
}

// It owns nothing.
unsafe impl Send for Tally {}

impl Tally {
    /// None was met.
    pub fn none() -> Tally
        ensures { result.met ≡ 0 }
    {
        Tally {}
    }

    /// One more was met.
    pub fn with_one_more(&self) -> Tally
        ensures { result.met ≡ self.now.met + 1 }
    {
        Tally {}
    }
}
