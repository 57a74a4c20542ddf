ghost use Rattle.std.specs.Prelude.{◌≡◌, IfOk};

use lg_base::{NoMemory, Text};
use std::alloc::AllocError;

/// One thing that a worker tells of itself.
#[derive(Debug, Drop)]
pub enum Info {
    Text(Text),
    /// A whole number of 64 bits with a sign.
    Number(i64),
    Truth(bool),
    Null,
}

impl Info {
    /// Information equal to this. Refused only where there is no memory.
    pub fn copy(&self) -> Result<Info, NoMemory>
        ensures { IfOk result (λ copy. copy ≡ self.now) }
    {
        Ok(self.clone()?)
    }
}

impl Clone for Info {
    ghost is_clone = { λ old new. new ≡ old };

    fn clone(&self) -> Result<Info, AllocError> {
        match self {
            Info::Text(text) => Ok(Info::Text(text.clone()?)),
            Info::Number(number) => Ok(Info::Number(*number)),
            Info::Truth(truth) => Ok(Info::Truth(*truth)),
            Info::Null => Ok(Info::Null),
        }
    }
}
