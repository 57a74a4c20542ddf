/// Where a task stands.
#[derive(Clone, Copy, Debug, PartialEq, Eq)]
pub enum Status {
    Pending,
    Running,
    BatchRunning,
    Done,
    Failed,
    Disabled,
    Unknown,
}

/// What a worker reports of a task.
#[derive(Clone, Copy, Debug, PartialEq, Eq)]
pub enum Reported {
    Pending,
    Running,
    Done,
    Failed,
    Disabled,
    Unknown,
    /// The task waits for others that came up while it ran. It is kept as pending.
    Suspended,
}
