ghost use Rattle.std.specs.Prelude.{◌≡◌, ◌↔◌, ◌⊎◌, List, ℕ, ok_or, Contains, IsTrue, IfOk, IsErrOf, IsOkUnless};
ghost use Rattle.std.specs.Char.{is_ascii_digit};
ghost use Rattle.std.specs.List.{list_all};
ghost use Rattle.std.specs.Str.Parse.{IsNumeral, without_leading_sign};
ghost use Rattle.lg_params.specs.Finds.{Finds};
ghost use Rattle.lg_params.specs.Ranges.{IsWritable};
ghost use Rattle.lg_params.specs.Refusing.{Answers, IsBadText, IsNoChoice, IsPast64Bits, HoldsText};
ghost use Rattle.lg_params.specs.Spelling.{Spells, SpellsTruth};
ghost use Rattle.lg_params.specs.declared.params.Param.{Param};

use crate::dates::{read_date, read_date_hour, read_date_minute, read_month, read_year};
use crate::lists::read_texts;
use crate::{Kind, Param, ReadFault, TextList};
use lg_base::Text;
use std::alloc::Global;

/// The value of a kind that a text spells. `BadText` where the text isn't of the kind's shape or names no day of the
/// calendar, `NotAChoice` where the kind declares texts and this is none of them, `OutOfRange` where a whole number
/// leaves 64 bits. Want of memory may come before the refusal of a list; a number, a truth value and a date take none.
pub fn read(alloc: Global, kind: &Kind, text: &Text) -> Result<Param, ReadFault>
    ensures value { IfOk result (Spells kind.now text.now) }
    ensures writable { IfOk result IsWritable }
    ensures spelled { (p : Param) → Spells kind.now text.now p → IsOkUnless result ReadFault.NoMemory }

    // Each refusal exactly where it is due.
    ensures bad_text { IsErrOf result ReadFault.BadText → IsBadText kind.now text.now }
    ensures bad_text_told { IsBadText kind.now text.now
        → IsErrOf result ReadFault.BadText ⊎ IsErrOf result ReadFault.NoMemory }
    ensures no_choice { IsErrOf result ReadFault.NotAChoice ↔ IsNoChoice kind.now text.now }
    ensures out_of_range { IsErrOf result ReadFault.OutOfRange ↔ IsPast64Bits kind.now text.now }
    ensures memory { IsErrOf result ReadFault.NoMemory → HoldsText kind.now }
{
    answer(alloc, kind, text)
}

fn answer(alloc: Global, kind: &Kind, text: &Text) -> Result<Param, ReadFault>
    ensures { Answers kind.now text.now result }
{
    match kind {
        Kind::Text => Ok(Param::Text(text.clone()?)),
        Kind::Int => read_int(text.as_str()),
        Kind::Truth => value_of(read_truth(text.as_str()).map(Param::Truth)),
        Kind::Date => value_of(read_date(text.bytes()).map(Param::Date)),
        Kind::DateHour => value_of(read_date_hour(text.bytes()).map(Param::DateHour)),
        Kind::DateMinute => value_of(read_date_minute(text.bytes()).map(Param::DateMinute)),
        Kind::Month => value_of(read_month(text.bytes()).map(Param::Month)),
        Kind::Year => value_of(read_year(text.bytes()).map(Param::Year)),
        Kind::Choice(choices) => read_choice(choices, text),
        Kind::Texts => read_texts(alloc, text.as_str()),
    }
}

fn value_of(found: Option<Param>) -> Result<Param, ReadFault>
    ensures { result ≡ ok_or found ReadFault.BadText }
{
    found.ok_or(ReadFault::BadText)
}

fn read_int(text: &str) -> Result<Param, ReadFault>
    ensures { Answers Kind.Int text.now result }
{
    if !is_whole_number(text.as_bytes()) {
        return Err(ReadFault::BadText);
    }
    match text.parse::<i64>() {
        Ok(number) => Ok(Param::Int(number)),
        Err(_) => Err(ReadFault::OutOfRange),
    }
}

/// Whether the bytes are an optional sign and one or more decimal digits.
fn is_whole_number(bytes: &[u8]) -> bool
    ensures { IsTrue result ↔ IsNumeral 10 (without_leading_sign bytes.now) }
{
    let digits = without_sign(bytes);
    !digits.is_empty() && are_digits(digits)
}

fn are_digits(bytes: &[u8]) -> bool
    ensures { result ≡ list_all is_ascii_digit bytes.now }
{
    bytes.iter().all(|byte| byte.is_ascii_digit())
}

fn without_sign(bytes: &[u8]) -> &[u8]
    ensures { result.now ≡ without_leading_sign bytes.now }
{
    match bytes {
        [b'+' | b'-', digits @ ..] => digits,
        _ => bytes,
    }
}

fn read_truth(text: &str) -> Option<bool>
    ensures { Finds (SpellsTruth text.now) result }
{
    if text.eq_ignore_ascii_case("true") {
        Some(true)
    } else if text.eq_ignore_ascii_case("false") {
        Some(false)
    } else {
        None
    }
}

fn read_choice(choices: &TextList, text: &Text) -> Result<Param, ReadFault>
    ensures { Answers (Kind.Choice choices.now) text.now result }
{
    if !is_among(choices.texts(), text.bytes()) {
        return Err(ReadFault::NotAChoice);
    }
    Ok(Param::Choice(text.clone()?))
}

fn is_among(choices: &[Text], text: &[u8]) -> bool
    ensures { IsTrue result ↔ Contains choices.now text.now }
{
    choices.iter().any(|choice| choice.bytes() == text)
}
