//! Why a pass was not split.
ghost use Rattle.std.specs.Prelude.{Some, codes};
ghost use Rattle.lg_turn.specs.Faults.{fault_text};

use std::error::Error;
use std::fmt;

/// Why a pass was not split.
#[derive(Clone, Copy, Debug, PartialEq, Eq, Hash)]
pub enum TurnFault {
    /// As many passes are out as the turn has callers.
    Many,
    /// 4,294,967,168 numbers of passes or more were drawn.
    Spent,
}

impl fmt::Display for TurnFault {
    ghost output = { λ fault. Some (fault_text fault) };

    fn fmt<W: fmt::Write>(&self, f: &mut fmt::Formatter<W>) -> fmt::Result {
        f.write_str(match self {
            TurnFault::Many => "as many passes are out as there are callers",
            TurnFault::Spent => "no numbers of passes are left",
        })
    }
}

impl Error for TurnFault {}
