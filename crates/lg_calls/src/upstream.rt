/// What a task waits for at worst: a task that runs, one that can run, one that failed, one that is disabled.
#[derive(Clone, Copy, Debug, PartialEq, Eq)]
pub enum UpstreamStatus {
    Running,
    MissingInput,
    Failed,
    Disabled,
}
