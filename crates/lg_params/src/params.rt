use crate::TextList;
use lg_base::Text;

/// A value of a parameter.
#[derive(Debug, Drop)]
pub enum Param {
    Text(Text),
    Int(i64),
    Truth(bool),
    /// Days since 1970-01-01.
    Date(i64),
    /// Hours since 1970-01-01T00.
    DateHour(i64),
    /// Minutes since 1970-01-01T0000.
    DateMinute(i64),
    /// Months since 1970-01.
    Month(i64),
    /// The year itself.
    Year(i64),
    Choice(Text),
    Texts(TextList),
}
