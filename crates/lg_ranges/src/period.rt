ghost use Rattle.std.specs.Prelude.{◌≡◌, IfSome};
ghost use Rattle.std.specs.Option.{SomeIff};
ghost use Rattle.lg_params.specs.Ranges.{IsWritable};
ghost use Rattle.lg_ranges.specs.Points.{milliseconds_of};
ghost use Rattle.lg_ranges.specs.Parameter.{param_of};

use lg_params::Param;

/// What a range is a range of. Its points are numbered from 1970-01-01 or 1970-01-01T00, in UTC.
#[derive(Clone, Copy, Debug, PartialEq, Eq, Hash)]
pub enum Period {
    Daily,
    Hourly,
}

impl Period {
    /// How long one day or hour is.
    pub(crate) fn milliseconds(self) -> u64
        ensures { result ≡ milliseconds_of self }
    {
        match self {
            Period::Daily => 86_400_000,
            Period::Hourly => 3_600_000,
        }
    }
}

/// The value that a point has as a task's parameter, which `lg_params::write` writes: a date, or a date with its hour.
/// None exactly where the point lies outside the years 0001 to 9999. It takes no memory.
pub fn parameter_of(period: Period, number: i64) -> Option<Param>
    ensures value { SomeIff result (IsWritable (param_of period number)) (param_of period number) }
    ensures writable { IfSome result IsWritable }
{
    match period {
        Period::Daily if (-719_162..=2_932_896).contains(&number) => Some(Param::Date(number)),
        Period::Hourly if (-17_259_888..=70_389_527).contains(&number) => Some(Param::DateHour(
            number,
        )),
        _ => None,
    }
}
