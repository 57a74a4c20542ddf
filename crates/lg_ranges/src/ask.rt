use crate::Period;
use lg_base::Moment;

/// What is asked of a range: its bounds, and how many of its missing points are wanted.
#[derive(Clone, Copy, Debug, PartialEq, Eq)]
pub struct Ask {
    pub period: Period,
    /// The first day or hour that may be due, counted from 1970-01-01. None is no bound.
    pub start: Option<i64>,
    /// The day or hour behind the last that may be due, counted from 1970-01-01. None is no bound.
    pub stop: Option<i64>,
    /// How many days or hours before `now` a point may begin. One that begins exactly so long before is a point.
    pub back: u32,
    /// How many days or hours behind `now` a point may begin. One that begins exactly so long behind is none.
    pub forward: u32,
    /// The most points that `required` gives.
    pub limit: u32,
    /// Whether the latest missing points come first.
    pub reverse: bool,
    /// The moment of asking, in milliseconds from 1970-01-01T00:00:00Z. Any is one: no sum wraps.
    pub now: Moment,
}
