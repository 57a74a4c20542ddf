//! One value, read as each kind.
ghost use Rattle.std.specs.Prelude.{◌≡◌, option_map};
ghost use Rattle.std.specs.Result.{result_ok};
ghost use Rattle.serde_json.specs.Find.{as_str};
ghost use Rattle.serde_json.specs.View.{view};
ghost use Rattle.lg_json.specs.Fields as spec;

use crate::TakeFault;
use lg_base::Text;
use serde_json::Value;

/// A field that isn't null.
pub(crate) fn present(field: Option<&Value>) -> Option<&Value>
    ensures { option_map (λ v. view v.now) result ≡ spec.value_in (option_map (λ v. view v.now) field.entry) }
{
    match field {
        None | Some(Value::Null) => None,
        Some(value) => Some(value),
    }
}

pub(crate) fn truth_of(value: &Value) -> Result<bool, TakeFault>
    ensures { result ≡ spec.truth_of (view value.now) }
{
    match value {
        Value::Bool(truth) => Ok(*truth),
        _ => Err(TakeFault::WrongKind),
    }
}

/// A whole number from -2^63 to 2^63 - 1. `WrongKind` where the value is no whole number (RFC 8259 has numbers alone; one
/// with a fraction or an exponent, or past 64 bits, is none), `OutOfRange` where it is 2^63 or more. It takes no memory.
pub fn int_of(value: &Value) -> Result<i64, TakeFault>
    ensures { result ≡ spec.int_of (view value.now) }
{
    match value {
        Value::Number(number) if number.is_f64() => Err(TakeFault::WrongKind),
        Value::Number(number) => number.as_i64().ok_or(TakeFault::OutOfRange),
        _ => Err(TakeFault::WrongKind),
    }
}

/// A whole number from 0 to 2^32 - 1. `WrongKind` where the value is no whole number, `OutOfRange` where it is below 0, or
/// 2^32 or more. It takes no memory.
pub fn amount_of(value: &Value) -> Result<u32, TakeFault>
    ensures { result ≡ spec.amount_of (view value.now) }
{
    match value {
        Value::Number(number) if number.is_f64() => Err(TakeFault::WrongKind),
        Value::Number(number) => match number.as_u64() {
            Some(amount) => u32::try_from(amount).map_err(|_| TakeFault::OutOfRange),
            None => Err(TakeFault::OutOfRange),
        },
        _ => Err(TakeFault::WrongKind),
    }
}

pub(crate) fn into_amount(value: Value) -> Option<u32>
    ensures { result ≡ result_ok (spec.amount_of (view value)) }
{
    amount_of(&value).ok()
}

pub(crate) fn check_text(value: &Value) -> Result<(), TakeFault>
    ensures { result ≡ spec.checked (spec.text_of (view value.now)) }
{
    match value {
        Value::String(_) => Ok(()),
        _ => Err(TakeFault::WrongKind),
    }
}

pub(crate) fn into_text(value: Value) -> Option<Text>
    ensures { result ≡ as_str (view value) }
{
    match value {
        Value::String(text) => Some(Text::from_string(text)),
        _ => None,
    }
}
