ghost use Rattle.std.specs.Prelude.{◌≡◌, ℕ, List, Option, length};
ghost use Rattle.lg_io.specs.declared.sink.WriteStep.TheVariants.{Failed};
ghost use Rattle.lg_io.specs.Cause.{HasCause};
ghost use Rattle.lg_io.specs.Rest.{Rest};
ghost use Rattle.lg_io.specs.Sink.{Takes, taken_of, FitsPiece};

/// The answer of a sink to a write.
#[derive(Clone, Copy, Debug, PartialEq, Eq)]
pub enum WriteStep {
    /// So many bytes of the piece's front were taken: at least 1 where the piece isn't empty.
    Took(usize),
    /// The write failed, and nothing was taken.
    Failed,
}

/// What bytes go to.
pub trait Sink {
    /// The bytes that it took, where it tells.
    ghost taken: { Self → Option (List ℕ) };

    /// How many of its calls met a fault.
    ghost faults: { Self → ℕ };

    /// What the object tells beside this trait.
    ghost rest: { Self → Rest };

    /// Writes a front of `piece`.
    fn write(&mut self, piece: &[u8]) -> WriteStep
        ensures count { FitsPiece result (length piece.now) }
        ensures told { Takes (taken self.old) (taken self.new) (taken_of result piece.now) }
        ensures cause { HasCause (faults self.old) (faults self.new) (result ≡ Failed) }
        ensures rest { rest self.new ≡ rest self.old };
}
