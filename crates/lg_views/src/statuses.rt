//! Tests of statuses.
ghost use Rattle.std.specs.Prelude.{◌≡◌};
ghost use Rattle.lg_calls.specs.Status.{is_status};
ghost use Rattle.lg_calls.specs.Valid.{is_running};

use lg_calls::Status;

/// Whether two statuses are one.
pub fn is_status(one: Status, other: Status) -> bool
    ensures { result ≡ is_status one other }
{
    one == other
}

/// Whether a status is that of a task that runs, alone or in a batch.
pub fn is_running(status: Status) -> bool
    ensures { result ≡ is_running status }
{
    matches!(status, Status::Running | Status::BatchRunning)
}
