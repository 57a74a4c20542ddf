//! What a turn may keep.
ghost use Rattle.std.specs.Prelude.{ℕ, List};

/// A value that stands for a list of entries over a base. Its members tell of it for contracts alone.
pub trait Keeps {
    /// An entry of the list, plain data.
    type Item;

    /// What the list began over, plain data.
    type Base;

    /// The entries for which the value stands, in order.
    ghost items: { Self → List Self.Item };

    /// The number of the pass that made an entry.
    ghost number: { Self.Item → ℕ };

    /// The base of the value.
    ghost base: { Self → Self.Base };
}
