ghost use Rattle.std.specs.Prelude.{◌≡◌, ℕ, Bool, ◌||◌, Option, length, option_map, IfSome, IsTrue};
ghost use Rattle.lg_io.specs.declared.source.ReadStep.TheVariants.{End, Failed};
ghost use Rattle.lg_io.specs.Cause.{HasCause};
ghost use Rattle.lg_io.specs.Rest.{Rest};
ghost use Rattle.lg_io.specs.Source.{Received, received_after, is_end, FitsBuffer};

/// The answer of a source to a read.
#[derive(Clone, Copy, Debug, PartialEq, Eq)]
pub enum ReadStep {
    /// So many bytes stand at the front of the buffer: at least 1 where the buffer isn't empty.
    Bytes(usize),
    /// There are no bytes, now and for good.
    End,
    /// There are no bytes now.
    Quiet,
    /// The read failed.
    Failed,
}

/// What bytes come from.
pub trait Source {
    /// What it gave, where it tells.
    ghost received: { Self → Option Received };

    /// Whether it answered its end.
    ghost is_over: { Self → Bool };

    /// How many of its calls met a fault.
    ghost faults: { Self → ℕ };

    /// What the object tells beside this trait.
    ghost rest: { Self → Rest };

    /// Reads some bytes into the front of `buf`.
    fn read(&mut self, buf: &mut [u8]) -> ReadStep
        ensures count { FitsBuffer result (length buf.old) }
        ensures told { received self.new ≡ option_map (received_after result buf.new) (received self.old) }
        ensures over { IsTrue (is_over self.old) → result ≡ End }
        ensures ends { is_over self.new ≡ (is_over self.old || is_end result) }
        ensures cause { HasCause (faults self.old) (faults self.new) (result ≡ Failed) }
        ensures rest { rest self.new ≡ rest self.old };

    /// Where it tells what it gave, it tells its end too.
    ghost tells_its_end: { (s : Self) → IfSome (received s) (λ r. r.ended ≡ is_over s) };
}
