/// What a call says of a task's retry policy: each entry from 0 to 10^12, and the setting's where there is none.
#[derive(Clone, Copy, Debug, PartialEq, Eq)]
pub struct RetryPolicy {
    /// With this many failures inside the window a task has failed too often.
    pub retry_count: Option<u64>,
    /// How long after its first failure a task has failed too often, in seconds.
    pub disable_hard_timeout: Option<u64>,
    /// How long a failure counts, in seconds.
    pub disable_window: Option<u64>,
}
