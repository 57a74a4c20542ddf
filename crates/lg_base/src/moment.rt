/// A moment, in whole milliseconds since 1970-01-01T00:00:00Z. The moments that a clock gives are below 2^62.
#[derive(Clone, Copy, Debug, Default, PartialEq, Eq, PartialOrd, Ord, Hash)]
pub struct Moment(pub u64);
