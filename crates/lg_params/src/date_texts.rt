ghost use Rattle.std.specs.Prelude.{◌≡◌, ◌<◌, ◌∷◌, ◌++◌, pos, OnOk, IfOk};
ghost use Rattle.std.specs.String.{string_bytes};
ghost use Rattle.jiff_core.specs.Date.{epoch_day};
ghost use Rattle.lg_params.specs.Dates.{IsNamedYear, IsMonth, IsYearText, IsMonthText, SpellsYear, SpellsMonth, SpellsDate, SpellsDateHour, SpellsDateMinute};
ghost use Rattle.lg_params.specs.Places.{two_digits};
ghost use Rattle.lg_params.specs.Ranges.{IsDay, IsHour, IsMinute, IsMonthNumber, IsYearNumber};

use crate::places::{push_four, push_two};
use jiff_core::civil::Date;
use std::alloc::{AllocError, Global};

/// `YYYY` of a year.
pub(crate) fn year_text(alloc: Global, year: i64) -> Result<String, AllocError>
    requires { IsYearNumber year }
    ensures { IfOk result (λ text. SpellsYear (string_bytes text) year) }
{
    year_digits(alloc, year as u16)
}

/// `YYYY-MM` of a month, in months since January 1970.
pub(crate) fn month_text(alloc: Global, months: i64) -> Result<String, AllocError>
    requires { IsMonthNumber months }
    ensures { IfOk result (λ text. SpellsMonth (string_bytes text) months) }
{
    let year = 1970 + months.div_euclid(12);
    let month = months.rem_euclid(12) + 1;
    month_digits(alloc, year as u16, month as u8)
}

/// `YYYY-MM-DD` of a day, in days since 1970-01-01.
pub(crate) fn date_text(alloc: Global, days: i64) -> Result<String, AllocError>
    requires { IsDay days }
    ensures { IfOk result (λ text. SpellsDate (string_bytes text) days) }
{
    match Date::from_unix_epoch_day(days) {
        Ok(date) => date_digits(alloc, date),
        Err(_) => unreachable!(),
    }
}

/// `YYYY-MM-DDTHH` of an hour, in hours since 1970-01-01T00.
pub(crate) fn date_hour_text(alloc: Global, hours: i64) -> Result<String, AllocError>
    requires { IsHour hours }
    ensures { IfOk result (λ text. SpellsDateHour (string_bytes text) hours) }
{
    let mut text = date_text(alloc, hours.div_euclid(24))?;
    push_marked(&mut text, 'T', hours.rem_euclid(24) as u8)?;
    Ok(text)
}

/// `YYYY-MM-DDTHHMM` of a minute, in minutes since 1970-01-01T0000.
pub(crate) fn date_minute_text(alloc: Global, minutes: i64) -> Result<String, AllocError>
    requires { IsMinute minutes }
    ensures { IfOk result (λ text. SpellsDateMinute (string_bytes text) minutes) }
{
    let mut text = date_hour_text(alloc, minutes.div_euclid(60))?;
    push_two(&mut text, minutes.rem_euclid(60) as u8)?;
    Ok(text)
}

fn date_digits(alloc: Global, date: Date) -> Result<String, AllocError>
    requires { IsDay (epoch_day date) }
    ensures { IfOk result (λ text. SpellsDate (string_bytes text) (epoch_day date)) }
{
    let mut text = month_digits(alloc, year_of(date), date.month)?;
    push_marked(&mut text, '-', date.day)?;
    Ok(text)
}

fn year_of(date: Date) -> u16
    requires { IsDay (epoch_day date) }
    ensures same { date.year ≡ pos result }
    ensures in_range { IsNamedYear result }
{
    date.year as u16
}

fn month_digits(alloc: Global, year: u16, month: u8) -> Result<String, AllocError>
    requires year_in { IsNamedYear year }
    requires month_in { IsMonth month }
    ensures { IfOk result (λ text. IsMonthText (string_bytes text) year month) }
{
    let mut text = year_digits(alloc, year)?;
    push_marked(&mut text, '-', month)?;
    Ok(text)
}

fn year_digits(alloc: Global, year: u16) -> Result<String, AllocError>
    requires { IsNamedYear year }
    ensures { IfOk result (λ text. IsYearText (string_bytes text) year) }
{
    let mut text = String::new(alloc);
    push_four(&mut text, year)?;
    Ok(text)
}

/// Writes a mark and two digits.
fn push_marked(text: &mut String, mark: char, n: u8) -> Result<(), AllocError>
    requires ascii { mark < 128 }
    requires small { n < 100 }
    ensures { OnOk result (string_bytes text.new ≡ string_bytes text.old ++ mark ∷ two_digits n) }
{
    text.push(mark)?;
    push_two(text, n)
}
