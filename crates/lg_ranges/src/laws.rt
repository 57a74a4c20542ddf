//! What the definitions come to, in the words of those who ask for a range.
ghost use Rattle.std.specs.Prelude.{◌≡◌, ◌↔◌, ◌+◌, ◌*◌, ◌<◌, ◌≤◌, ℕ, ℤ, pos, ◌+ℤ◌, ◌*ℤ◌, ◌-ℤ◌, ◌≤ℤ◌, ◌<ℤ◌, Bool, List, length};
ghost use Rattle.lg_base.specs.declared.moment.Moment.{Moment};
ghost use Rattle.lg_params.specs.Dates.{SpellsDate, SpellsDateHour};
ghost use Rattle.lg_params.specs.Writing.{IsWritten};
ghost use Rattle.lg_ranges.specs.Bounds.{IsFirstFrom, IsInside};
ghost use Rattle.lg_ranges.specs.Parameter.{param_of};
ghost use Rattle.lg_ranges.specs.Points.{ArePoints, IsPoint, moment_of};
ghost use Rattle.lg_ranges.specs.Required.{AreRequired, IsEndOf, IsMissing, missing_points};
ghost use Rattle.lg_ranges.specs.declared.ask.Ask.{Ask};
ghost use Rattle.lg_ranges.specs.declared.period.Period.{Period};
ghost use Rattle.lg_ranges.specs.declared.period.Period.TheVariants.{Daily, Hourly};

/// The bounds are those of numbers, counted from the first day or hour that begins at `now` or later. So the point at the
/// start and the one at `now` less `back` belong to the points, and those at the stop and at `now` plus `forward` don't.
pub fn bounds_in_numbers()
    ensures { (ask : Ask) (now number : ℤ) → IsFirstFrom ask.period ask.now now
        → IsPoint ask number ↔ IsInside ask now number }
{}

/// At the beginning of a day or an hour that one itself is the first.
pub fn a_beginning_is_the_first()
    ensures { (period : Period) (now : Moment) (number : ℤ) → pos now.0 ≡ moment_of period number
        → IsFirstFrom period now number }
{}

/// An hour begins so many hours behind its day.
pub fn hours_of_a_day()
    ensures { (day : ℤ) (hour : ℕ)
        → moment_of Hourly (day *ℤ pos 24 +ℤ pos hour) ≡ moment_of Daily day +ℤ pos (hour * 3_600_000) }
{}

/// The parameter of a point is written as the date, or the date with its hour, that the calendar has at its number.
pub fn points_are_dates()
    ensures days { (number : ℤ) (text : List ℕ) → IsWritten (param_of Daily number) text → SpellsDate text number }
    ensures hours { (number : ℤ) (text : List ℕ)
        → IsWritten (param_of Hourly number) text → SpellsDateHour text number }
{}

/// Between two ends lie all points in one way alone, where there are any.
pub fn one_range()
    ensures same { (ask : Ask) (ends others : ℤ × ℤ)
        → ArePoints ask ends → ArePoints ask others → ends.0 <ℤ ends.1 → ends ≡ others }
    ensures none { (ask : Ask) (ends : ℤ × ℤ)
        → ArePoints ask ends → ends.0 ≡ ends.1 → (number : ℤ) → ¬ IsPoint ask number }
{}

/// There are at most as many points as days or hours are counted back and forward.
pub fn few_points()
    ensures { (ask : Ask) (ends : ℤ × ℤ) → ArePoints ask ends → (ends.1 -ℤ ends.0) ≤ℤ pos (ask.back + ask.forward) }
{}

/// A missing point is a point.
pub fn missing_are_points()
    ensures { (ask : Ask) (missing : List Bool) (number : ℤ) → IsMissing ask missing number → IsPoint ask number }
{}

/// There is one list of what is required, and it has no more than are wanted.
pub fn one_list()
    ensures one { (ask : Ask) (missing : List Bool) (required others : List ℤ)
        → AreRequired ask missing required → AreRequired ask missing others → required ≡ others }
    ensures limit { (ask : Ask) (missing : List Bool) (required : List ℤ)
        → AreRequired ask missing required → length required ≤ ask.limit }
{}

/// It is the beginning of the missing points; in reverse it is their end, read backwards.
pub fn first_or_last()
    ensures { (ask : Ask) (missing : List Bool) (required : List ℤ) (is : AreRequired ask missing required)
        → IsEndOf ask.reverse required (missing_points is.first missing) }
{}
