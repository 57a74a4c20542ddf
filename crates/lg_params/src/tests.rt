use crate::{Kind, Param, ReadFault, TextList, read, write};
use lg_base::Text;
use std::alloc::Global;
use std::process::Abort;
use std::test::Fail;

/// The number of a value, or how many texts are in it.
fn number_of(param: &Param) -> i64 {
    match param {
        Param::Int(number) => *number,
        Param::Truth(truth) => i64::from(*truth),
        Param::Date(days) => *days,
        Param::DateHour(hours) => *hours,
        Param::DateMinute(minutes) => *minutes,
        Param::Month(months) => *months,
        Param::Year(year) => *year,
        Param::Text(_) | Param::Choice(_) => 1,
        Param::Texts(texts) => texts.texts().len() as i64,
    }
}

/// The number of the value that a text is read as, or the refusal.
fn number(alloc: Global, kind: &Kind, text: &str) -> Result<Result<i64, ReadFault>, Fail> {
    let text = Text::copied(alloc, text)?;
    match read(alloc, kind, &text) {
        Ok(param) => Ok(Ok(number_of(&param))),
        Err(fault) => Ok(Err(fault)),
    }
}

/// The written text of what a text is read as.
fn rewritten(alloc: Global, kind: &Kind, text: &str) -> Result<Text, Fail> {
    Ok(write(alloc, &read(alloc, kind, &Text::copied(alloc, text)?)?)?)
}

fn assert_numbers(
    rt: &impl Abort,
    alloc: Global,
    kind: &Kind,
    rows: &[(&str, Result<i64, ReadFault>)],
) -> Result<(), Fail> {
    for (text, expected) in rows {
        assert_eq!(rt; number(alloc, kind, text)?, *expected, "{text:?}");
    }
    Ok(())
}

const BAD: Result<i64, ReadFault> = Err(ReadFault::BadText);

const OUT: Result<i64, ReadFault> = Err(ReadFault::OutOfRange);

#[test]
fn whole_numbers_have_a_sign_and_digits(rt: HostRuntime) -> Result<(), Fail> {
    let rows = [
        ("0", Ok(0)),
        ("007", Ok(7)),
        ("+5", Ok(5)),
        ("-0", Ok(0)),
        ("-12", Ok(-12)),
        ("9223372036854775807", Ok(i64::MAX)),
        ("-9223372036854775808", Ok(i64::MIN)),
        ("9223372036854775808", OUT),
        ("+9223372036854775808", OUT),
        ("-9223372036854775809", OUT),
        ("00000000000000000000000000000000000000009", Ok(9)),
        ("99999999999999999999999999999999999999x", BAD),
        ("", BAD),
        ("+", BAD),
        ("-", BAD),
        ("+-5", BAD),
        (" 5", BAD),
        ("5 ", BAD),
        ("1_000", BAD),
        ("0x10", BAD),
        ("1.0", BAD),
        ("٣", BAD),
    ];
    assert_numbers(&rt, rt.alloc(), &Kind::Int, &rows)
}

#[test]
fn truth_values_are_two_words_in_any_case(rt: HostRuntime) -> Result<(), Fail> {
    let rows = [
        ("true", Ok(1)),
        ("TRUE", Ok(1)),
        ("tRuE", Ok(1)),
        ("False", Ok(0)),
        ("false", Ok(0)),
        ("yes", BAD),
        ("1", BAD),
        ("", BAD),
        ("true ", BAD),
        ("ſtrue", BAD),
    ];
    assert_numbers(&rt, rt.alloc(), &Kind::Truth, &rows)
}

#[test]
fn dates_are_days_of_the_calendar(rt: HostRuntime) -> Result<(), Fail> {
    let rows = [
        ("1970-01-01", Ok(0)),
        ("1970-01-02", Ok(1)),
        ("1969-12-31", Ok(-1)),
        ("2000-03-01", Ok(11017)),
        ("2024-02-29", Ok(19782)),
        ("2023-02-29", BAD),
        ("1900-02-29", BAD),
        ("2000-02-29", Ok(11016)),
        ("0001-01-01", Ok(-719162)),
        ("9999-12-31", Ok(2932896)),
        ("0000-12-31", BAD),
        ("2024-13-01", BAD),
        ("2024-00-01", BAD),
        ("2024-04-31", BAD),
        ("2024-04-00", BAD),
        ("2024-4-01", BAD),
        ("2024-04-1", BAD),
        ("02024-04-01", BAD),
        ("2024/04/01", BAD),
        ("+024-04-01", BAD),
        ("2024-04-01 ", BAD),
        ("2024-04-01T00", BAD),
        ("", BAD),
        ("é24-04-01", BAD),
    ];
    assert_numbers(&rt, rt.alloc(), &Kind::Date, &rows)
}

#[test]
fn hours_and_minutes_follow_a_date(rt: HostRuntime) -> Result<(), Fail> {
    let hours = [
        ("1970-01-01T00", Ok(0)),
        ("1970-01-02T01", Ok(25)),
        ("1969-12-31T23", Ok(-1)),
        ("0001-01-01T00", Ok(-17259888)),
        ("9999-12-31T23", Ok(70389527)),
        ("2024-02-29T24", BAD),
        ("2023-02-29T00", BAD),
        ("2024-02-29t00", BAD),
        ("2024-02-29 00", BAD),
        ("2024-02-29T0", BAD),
        ("2024-02-29", BAD),
    ];
    assert_numbers(&rt, rt.alloc(), &Kind::DateHour, &hours)?;
    let minutes = [
        ("1970-01-01T0000", Ok(0)),
        ("1970-01-01T0101", Ok(61)),
        ("1969-12-31T2359", Ok(-1)),
        ("0001-01-01T0000", Ok(-1035593280)),
        ("9999-12-31T2359", Ok(4223371679)),
        ("2024-02-29T0060", BAD),
        ("2024-02-29T2400", BAD),
        ("2024-02-29T00:00", BAD),
        ("2024-02-29T00", BAD),
    ];
    assert_numbers(&rt, rt.alloc(), &Kind::DateMinute, &minutes)
}

#[test]
fn months_and_years_fill_their_places(rt: HostRuntime) -> Result<(), Fail> {
    let months = [
        ("1970-01", Ok(0)),
        ("1970-12", Ok(11)),
        ("1969-12", Ok(-1)),
        ("2024-02", Ok(649)),
        ("0001-01", Ok(-23628)),
        ("9999-12", Ok(96359)),
        ("2024-13", BAD),
        ("2024-00", BAD),
        ("0000-01", BAD),
        ("2024-1", BAD),
        ("2024", BAD),
    ];
    assert_numbers(&rt, rt.alloc(), &Kind::Month, &months)?;
    let years = [
        ("0001", Ok(1)),
        ("2024", Ok(2024)),
        ("9999", Ok(9999)),
        ("0000", BAD),
        ("999", BAD),
        ("10000", BAD),
        ("-001", BAD),
        ("", BAD),
    ];
    assert_numbers(&rt, rt.alloc(), &Kind::Year, &years)
}

fn choices(alloc: Global) -> Result<Kind, Fail> {
    let texts = vec![in alloc;
        Text::copied(alloc, "low")?,
        Text::copied(alloc, "")?,
        Text::copied(alloc, "lower")?,
    ]?;
    Ok(Kind::Choice(TextList::from_vec(texts)))
}

#[test]
fn a_choice_is_one_of_the_declared_texts(rt: HostRuntime) -> Result<(), Fail> {
    let alloc = rt.alloc();
    let kind = choices(alloc)?;
    for text in ["low", "", "lower"] {
        assert_eq!(rt; rewritten(alloc, &kind, text)?.as_str(), text);
    }
    let none = Err(ReadFault::NotAChoice);
    let rows = [
        ("lo", none),
        ("Low", none),
        ("low ", none),
        ("lowest", none),
    ];
    assert_numbers(&rt, alloc, &kind, &rows)?;
    let nothing = Kind::Choice(TextList::from_vec(Vec::new(alloc)));
    assert_numbers(&rt, alloc, &nothing, &[("", none)])
}

#[test]
fn a_list_is_json(rt: HostRuntime) -> Result<(), Fail> {
    let rows = [
        ("[]", Ok(0)),
        (" [ ] ", Ok(0)),
        ("[\"a\", \"b\"]", Ok(2)),
        ("[\"a\",\"b\"]", Ok(2)),
        ("\n[ \"a\" ,\t\"b\" ]\r", Ok(2)),
        ("[\"a\", 1]", BAD),
        ("[\"a\", null]", BAD),
        ("[[\"a\"]]", BAD),
        ("[\"a\",]", BAD),
        ("[\"a\" \"b\"]", BAD),
        ("[\"a\"] x", BAD),
        ("['a']", BAD),
        ("[\"\\ud800\"]", BAD),
        ("\"a\"", BAD),
        ("{}", BAD),
        ("a", BAD),
        ("", BAD),
    ];
    assert_numbers(&rt, rt.alloc(), &Kind::Texts, &rows)
}

#[test]
fn a_list_keeps_its_texts_in_order(rt: HostRuntime) -> Result<(), Fail> {
    let text = Text::copied(rt.alloc(), "[\"b\", \"\", \"a\"]")?;
    let Param::Texts(list) = read(rt.alloc(), &Kind::Texts, &text)? else {
        return Err(Fail::from(ReadFault::BadText));
    };
    assert_eq!(rt; list.texts().len(), 3);
    let texts = list.into_vec();
    assert_eq!(rt; texts.len(), 3);
    assert_eq!(rt; texts[0].as_str(), "b");
    assert_eq!(rt; texts[1].as_str(), "");
    assert_eq!(rt; texts[2].as_str(), "a");
    Ok(())
}

#[test]
fn each_value_has_one_text(rt: HostRuntime) -> Result<(), Fail> {
    let alloc = rt.alloc();
    let rows = [
        (Kind::Text, "", ""),
        (Kind::Text, " é\n", " é\n"),
        (Kind::Int, "007", "7"),
        (Kind::Int, "+5", "5"),
        (Kind::Int, "-0", "0"),
        (Kind::Int, "-9223372036854775808", "-9223372036854775808"),
        (Kind::Truth, "TRUE", "True"),
        (Kind::Truth, "false", "False"),
        (Kind::Date, "0001-01-01", "0001-01-01"),
        (Kind::Date, "2024-02-29", "2024-02-29"),
        (Kind::Date, "9999-12-31", "9999-12-31"),
        (Kind::DateHour, "0001-01-01T00", "0001-01-01T00"),
        (Kind::DateHour, "1969-12-31T23", "1969-12-31T23"),
        (Kind::DateMinute, "9999-12-31T2359", "9999-12-31T2359"),
        (Kind::DateMinute, "1969-12-31T2359", "1969-12-31T2359"),
        (Kind::Month, "0001-01", "0001-01"),
        (Kind::Month, "1969-12", "1969-12"),
        (Kind::Month, "9999-12", "9999-12"),
        (Kind::Year, "0001", "0001"),
        (Kind::Texts, "[]", "[]"),
        (Kind::Texts, "[\"\"]", "[\"\"]"),
        (Kind::Texts, "[\"a\",\"b\"]", "[\"a\", \"b\"]"),
        (Kind::Texts, "[\"é\\/\"]", "[\"\\u00e9/\"]"),
        (Kind::Texts, "[\"\\ud83d\\ude00\"]", "[\"\\ud83d\\ude00\"]"),
        (Kind::Texts, "[\"\\u0041\\n\\\"\"]", "[\"A\\n\\\"\"]"),
    ];
    for (kind, text, expected) in &rows {
        assert_eq!(rt;
            rewritten(alloc, kind, text)?.as_str(),
            *expected,
            "{text:?}"
        );
    }
    Ok(())
}

#[test]
fn refusals_have_words(rt: HostRuntime) -> Result<(), Fail> {
    let rows = [
        (ReadFault::BadText, "a text of another kind"),
        (ReadFault::NotAChoice, "a text that is no choice"),
        (ReadFault::OutOfRange, "a number out of range"),
        (ReadFault::NoMemory, "no memory"),
    ];
    for (fault, words) in rows {
        assert_eq!(rt; format!(in rt.alloc(); "{fault}")?.as_str(), words);
    }
    Ok(())
}
