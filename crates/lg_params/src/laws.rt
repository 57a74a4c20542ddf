ghost use Rattle.std.specs.Prelude.{◌≡◌, ◌↔◌, ◌<◌, ℕ, List, ℤ, pos, ◌+ℤ◌, ◌*ℤ◌};
ghost use Rattle.jiff_core.specs.Calendar.{IsBetween};
ghost use Rattle.jiff_core.specs.Date.{epoch_day};
ghost use Rattle.jiff_core.specs.declared.civil.date.Date.{Date};
ghost use Rattle.lg_params.specs.Dates.{IsNamedYear, IsMonth, month_number};
ghost use Rattle.lg_params.specs.Kinds.{IsOfKind, HoldsUtf8};
ghost use Rattle.lg_params.specs.Ranges.{IsDay, IsHour, IsMinute, IsMonthNumber, IsWritable};
ghost use Rattle.lg_params.specs.Spelling.{Spells};
ghost use Rattle.lg_params.specs.Writing.{IsWritten};
ghost use Rattle.lg_params.specs.declared.kinds.Kind.{Kind};
ghost use Rattle.lg_params.specs.declared.params.Param.{Param};

/// The written text of a value of a kind is read, and as that value.
pub fn written_is_read()
    ensures { (kind : Kind) (p : Param) (text : List ℕ) → IsOfKind kind p → HoldsUtf8 p
        → IsWritten p text → Spells kind text p }
{}

/// A text is one value of a kind at most.
pub fn one_value()
    ensures { (kind : Kind) (text : List ℕ) (p q : Param) → Spells kind text p → Spells kind text q → p ≡ q }
{}

/// A value has one written text.
pub fn one_text()
    ensures { (p : Param) (text other : List ℕ) → IsWritten p text → IsWritten p other → text ≡ other }
{}

/// What is read can be written.
pub fn read_is_writable()
    ensures { (kind : Kind) (text : List ℕ) (p : Param) → Spells kind text p → IsWritable p }
{}

/// An hour is in range where its day is, a minute where its hour is, a month where its year is named.
pub fn hours_of_days()
    ensures hours { (day : ℤ) (hour : ℕ) → hour < 24 → IsHour (day *ℤ pos 24 +ℤ pos hour) ↔ IsDay day }
    ensures minutes { (hours : ℤ) (minute : ℕ) → minute < 60
        → IsMinute (hours *ℤ pos 60 +ℤ pos minute) ↔ IsHour hours }
    ensures months { (year month : ℕ) → IsMonth month
        → IsMonthNumber (month_number year month) ↔ IsNamedYear year }
{}

/// The days in range are those of the calendar in the years 0001 to 9999.
pub fn days_of_years()
    ensures { (date : Date) → IsDay (epoch_day date) ↔ IsBetween (pos 1) (pos 9999) date.year }
{}
