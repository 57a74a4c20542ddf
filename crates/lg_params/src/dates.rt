ghost use Rattle.std.specs.Prelude.{◌≡◌, ◌<◌, ℕ, pos, MatchOption, IfSome};
ghost use Rattle.jiff_core.specs.Calendar.{IsCivilDate, days_from_civil};
ghost use Rattle.lg_params.specs.Dates.{IsNamedYear, IsMonth, IsYearText, IsMonthText, SpellsYear, SpellsMonth, SpellsDate, SpellsDateHour, SpellsDateMinute};
ghost use Rattle.lg_params.specs.Finds.{Finds};
ghost use Rattle.lg_params.specs.Ranges.{IsDay, IsHour};

use crate::places::{read_four, split_marked, split_two};
use jiff_core::civil::Date;

/// The day that `YYYY-MM-DD` names, in days since 1970-01-01.
pub(crate) fn read_date(bytes: &[u8]) -> Option<i64>
    ensures found { Finds (SpellsDate bytes.now) result }
    ensures in_range { IfSome result IsDay }
{
    let (front, day) = split_marked(bytes, b'-')?;
    let (year, month) = year_and_month(front)?;
    day_number(year, month, day)
}

/// The number of a day, where the calendar has it.
fn day_number(year: u16, month: u8, day: u8) -> Option<i64>
    requires year_in { IsNamedYear year }
    requires month_in { IsMonth month }
    requires day_in { day < 100 }
    ensures found { MatchOption result (¬ IsCivilDate (pos year) month day)
        (λ n. IsCivilDate (pos year) month day × (n ≡ days_from_civil (pos year) month day)) }
    ensures in_range { IfSome result IsDay }
{
    match Date::new(year as i16, month as i8, day as i8) {
        Ok(date) => Some(i64::from(date.to_unix_epoch_day())),
        Err(_) => None,
    }
}

/// The hour that `YYYY-MM-DDTHH` names, in hours since 1970-01-01T00.
pub(crate) fn read_date_hour(bytes: &[u8]) -> Option<i64>
    ensures found { Finds (SpellsDateHour bytes.now) result }
    ensures in_range { IfSome result IsHour }
{
    let (date, hour) = split_marked(bytes, b'T')?;
    if hour >= 24 {
        return None;
    }
    Some(read_date(date)? * 24 + i64::from(hour))
}

/// The minute that `YYYY-MM-DDTHHMM` names, in minutes since 1970-01-01T0000.
pub(crate) fn read_date_minute(bytes: &[u8]) -> Option<i64>
    ensures { Finds (SpellsDateMinute bytes.now) result }
{
    let (date, minute) = split_two(bytes)?;
    if minute >= 60 {
        return None;
    }
    Some(read_date_hour(date)? * 60 + i64::from(minute))
}

/// The month that `YYYY-MM` names, in months since January 1970.
pub(crate) fn read_month(bytes: &[u8]) -> Option<i64>
    ensures { Finds (SpellsMonth bytes.now) result }
{
    let (year, month) = year_and_month(bytes)?;
    Some((i64::from(year) - 1970) * 12 + i64::from(month) - 1)
}

/// The year that `YYYY` names.
pub(crate) fn read_year(bytes: &[u8]) -> Option<i64>
    ensures { Finds (SpellsYear bytes.now) result }
{
    let year = year_in(bytes)?;
    Some(i64::from(year))
}

fn year_and_month(bytes: &[u8]) -> Option<(u16, u8)>
    ensures { MatchOption result ((year month : ℕ) → ¬ IsMonthText bytes.now year month)
        (λ found. IsMonthText bytes.now found.0 found.1) }
{
    let (front, month) = split_marked(bytes, b'-')?;
    if month < 1 || month > 12 {
        return None;
    }
    let year = year_in(front)?;
    Some((year, month))
}

fn year_in(bytes: &[u8]) -> Option<u16>
    ensures { Finds (IsYearText bytes.now) result }
{
    let year = read_four(bytes)?;
    if year == 0 {
        return None;
    }
    Some(year)
}
