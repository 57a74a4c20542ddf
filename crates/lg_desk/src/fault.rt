//! Why a call was not answered with a reply.
ghost use Rattle.std.specs.Prelude.{◌≡◌};

use lg_calls::StepFault;

/// Why a call at a desk was not answered with a reply.
#[derive(Clone, Copy, Debug, PartialEq, Eq)]
pub enum DeskFault {
    /// The journal, of so many entries, is over: it holds a `stop`, or is full. The call isn't entered.
    Over(u64),
    /// The scheduler has so many tasks that those which the call would make pass its most, or numbers have run out for
    /// them. The call is entered, and the state is as before.
    Full(u64),
    /// Memory ran out. The call isn't entered, and the state is as before.
    NoMemory,
}

impl From<StepFault> for DeskFault {
    ghost use Rattle.lg_desk.specs.Faults.{desk_fault};

    ghost from_gives = { λ fault result. result ≡ desk_fault fault };

    fn from(fault: StepFault) -> DeskFault {
        match fault {
            StepFault::Full(tasks) => DeskFault::Full(tasks),
            StepFault::NoMemory => DeskFault::NoMemory,
        }
    }
}
