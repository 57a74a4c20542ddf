ghost use Rattle.std.specs.Prelude.{ℕ, List, [], ◌∷◌, Option};
ghost use Rattle.lg_io.specs.Tells.{TellsOn};

/// Where random numbers come from.
pub trait Numbers {
    /// The numbers that were drawn, in order, while it tells them.
    ghost draws: { Self → Option (List ℕ) };

    /// Draws a number of 64 bits.
    fn draw(&mut self) -> u64
        ensures { TellsOn (draws self.old) (draws self.new) (result ∷ []) };
}
