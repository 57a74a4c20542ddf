ghost use Rattle.std.specs.Prelude.{◌≡◌, ◌≤◌, [], ◌∷◌, Some, vec_len};
ghost use Rattle.lg_io.specs.Tells.{TellsOn};

use crate::Numbers;

/// Gives the numbers of a list, and tells them. Behind the list it gives 0 and tells nothing any more.
#[derive(Debug, Drop)]
pub struct MemoryNumbers {
    numbers: Vec<u64>,
    drawn: usize,
    is_told: bool,
    ghost in_list: { drawn ≤ vec_len numbers },
}

impl MemoryNumbers {
    ghost use Rattle.lg_io.specs.MemoryNumbers.{drawn_numbers, numbers_ahead};

    /// The numbers of this list, in order.
    pub fn new(numbers: Vec<u64>) -> MemoryNumbers
        ensures draws { drawn_numbers result ≡ Some [] }
        ensures ahead { numbers_ahead result ≡ numbers.items }
    {
        MemoryNumbers {
            numbers,
            drawn: 0,
            is_told: true,
        }
    }
}

impl Numbers for MemoryNumbers {
    ghost use Rattle.lg_io.specs.MemoryNumbers.{drawn_numbers, DrawsNext};

    ghost draws = { drawn_numbers };

    fn draw(&mut self) -> u64
        ensures told { TellsOn (drawn_numbers self.old) (drawn_numbers self.new) (result ∷ []) }
        ensures follows { DrawsNext self.old self.new result }
    {
        if self.drawn < self.numbers.len() {
            let number = self.numbers[self.drawn];
            self.drawn += 1;
            return number;
        }
        self.is_told = false;
        0
    }
}
