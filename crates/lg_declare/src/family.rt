use crate::template::Template;
use lg_base::{Amounts, Name, Seq, Text};
use lg_params::Kind;

/// How the values of a batch are combined.
#[derive(Clone, Copy, Debug, PartialEq, Eq, Hash)]
pub enum Batch {
    /// The greatest value, in the order of the kind.
    Max,
    /// The least value.
    Min,
    /// The texts, joined by `,`.
    Csv,
}

/// A parameter of a family.
#[derive(Debug, Drop)]
pub struct Parameter {
    pub name: Name,
    pub kind: Kind,
    /// What it is where it isn't given, a text that its kind reads; without a default it has to be given.
    pub default: Option<Text>,
    /// Whether it counts for the id of a task.
    pub significant: bool,
    pub batch: Option<Batch>,
}

/// A task that has to be done before.
#[derive(Debug, Drop)]
pub struct Requirement {
    /// Its family, which is declared.
    pub task: Name,
    /// What is given for its parameters, in the order of the names' bytes.
    pub params: Seq<(Name, Template)>,
}

/// How often a task is tried again, where the family says it: counts, and seconds, from 0 to 10^12.
#[derive(Clone, Copy, Debug, PartialEq, Eq, Hash)]
pub struct Retries {
    pub retry_count: Option<u64>,
    pub disable_window: Option<u64>,
    pub disable_hard_timeout: Option<u64>,
}

/// A family of tasks.
#[derive(Debug, Drop)]
pub struct Family {
    pub name: Name,
    /// The words of the command, one at least.
    pub command: Option<Seq<Template>>,
    pub outputs: Seq<Template>,
    /// Whether its tasks are done by others; then it has no command.
    pub external: bool,
    pub requirements: Seq<Requirement>,
    pub resources: Amounts,
    pub priority: i64,
    pub retries: Retries,
    /// How many tasks a batch has at most, 1 or more.
    pub max_batch_size: Option<u64>,
    /// In the order of their names' bytes.
    pub params: Seq<Parameter>,
}
