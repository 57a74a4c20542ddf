use crate::TextList;

/// A kind of parameter: which texts are read, and which are written.
#[derive(Debug, Drop)]
pub enum Kind {
    /// Any text.
    Text,
    /// A whole number from -2^63 to 2^63 - 1: an optional `+` or `-` and one or more digits. It is written without
    /// leading zeros.
    Int,
    /// `true` or `false`, in any ASCII case. It is written `True` or `False`.
    Truth,
    /// `YYYY-MM-DD`, a day of the calendar (ISO 8601, proleptic Gregorian) in the years 0001 to 9999.
    Date,
    /// `YYYY-MM-DDTHH`, a date with an hour from 00 to 23.
    DateHour,
    /// `YYYY-MM-DDTHHMM`, a date with an hour and a minute from 00 to 59.
    DateMinute,
    /// `YYYY-MM`, the years 0001 to 9999.
    Month,
    /// `YYYY`, from 0001 to 9999.
    Year,
    /// One of these texts.
    Choice(TextList),
    /// A JSON list of texts (RFC 8259). It is written with a comma and a blank between each two, and with escapes for all
    /// but printable ASCII.
    Texts,
}
