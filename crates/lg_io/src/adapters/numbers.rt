ghost use Rattle.std.specs.Prelude.{None};

use crate::Numbers;
use std::random::RandomSource;

/// The numbers of the system's source. Where it can't be read, the next number follows from the last by the
/// multiplier and the increment of Knuth's MMIX.
#[derive(Drop)]
pub struct RandomNumbers<R> {
    runtime: R,
    last: u64,
}

impl<R: RandomSource> RandomNumbers<R> {
    /// The numbers of this runtime.
    pub fn new(runtime: R) -> RandomNumbers<R> {
        RandomNumbers { runtime, last: 0 }
    }
}

impl<R: RandomSource> Numbers for RandomNumbers<R> {
    ghost draws = { λ _. None };

    fn draw(&mut self) -> u64 {
        let mut bytes = [0; 8];
        self.last = match self.runtime.fill_bytes(&mut bytes) {
            Ok(()) => u64::from_le_bytes(bytes),
            Err(_) => self
                .last
                .wrapping_mul(6_364_136_223_846_793_005)
                .wrapping_add(1_442_695_040_888_963_407),
        };
        self.last
    }
}
