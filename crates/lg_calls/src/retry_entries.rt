//! What a call says of a task's retry policy.
ghost use Rattle.std.specs.Prelude.{◌≡◌, IfOk, IfSome, OnOk, IsTrue, option_map};
ghost use Rattle.serde_json.specs.View.{view};
ghost use Rattle.lg_json.specs.Fields.{fields_view, optional, IsTakenOut};
ghost use Rattle.lg_calls.specs.RetryEntries.{entries_in, entry_in, entry_of, is_entry, is_policy, policy_read};

use crate::retry_policy::RetryPolicy;
use lg_json::{Fields, TakeFault};
use serde_json::Value;

/// The largest number of a retry policy.
const MAX_ENTRY: u64 = 1_000_000_000_000;

/// Nothing is said of the policy.
pub(crate) const NO_POLICY: RetryPolicy = RetryPolicy {
    retry_count: None,
    disable_hard_timeout: None,
    disable_window: None,
};

/// What a retry policy is, read of a value that may be absent. `WrongKind` where it is no object, or an entry is no whole
/// number; `OutOfRange` where an entry is below 0 or above 10^12. The first fault counts, in the order of `RetryPolicy`.
pub(crate) fn policy_in(value: Option<Value>) -> Result<Option<RetryPolicy>, TakeFault>
    ensures read { result ≡ optional policy_read (option_map view value) }
    ensures in_range { IfOk result (λ read. IfSome read (λ policy. IsTrue (is_policy policy))) }
{
    match value {
        None => Ok(None),
        Some(value) => Ok(Some(policy_read(value)?)),
    }
}

fn policy_read(value: Value) -> Result<RetryPolicy, TakeFault>
    ensures read { result ≡ policy_read (view value) }
    ensures in_range { IfOk result (λ policy. IsTrue (is_policy policy)) }
{
    match Fields::from_value(value) {
        Ok(fields) => entries_in(fields),
        Err(_) => Err(TakeFault::WrongKind),
    }
}

fn entries_in(mut fields: Fields) -> Result<RetryPolicy, TakeFault>
    ensures read { result ≡ entries_in (fields_view fields) }
    ensures in_range { IfOk result (λ policy. IsTrue (is_policy policy)) }
{
    let retry_count = take_entry(&mut fields, "retry_count")?;
    let disable_hard_timeout = take_entry(&mut fields, "disable_hard_timeout")?;
    let disable_window = take_entry(&mut fields, "disable_window")?;
    Ok(RetryPolicy {
        retry_count,
        disable_hard_timeout,
        disable_window,
    })
}

fn take_entry(fields: &mut Fields, name: &str) -> Result<Option<u64>, TakeFault>
    ensures read { result ≡ entry_in name.now (fields_view fields.old) }
    ensures in_range { IfOk result (λ entry. IsTrue (is_entry entry)) }
    ensures others { OnOk result (IsTakenOut name.now (fields_view fields.old) (fields_view fields.new)) }
{
    let asked = fields.take_int(name)?;
    entry_of(asked)
}

fn entry_of(asked: Option<i64>) -> Result<Option<u64>, TakeFault>
    ensures read { result ≡ entry_of asked }
    ensures in_range { IfOk result (λ entry. IsTrue (is_entry entry)) }
{
    let Some(asked) = asked else {
        return Ok(None);
    };
    match u64::try_from(asked) {
        Ok(entry) if entry <= MAX_ENTRY => Ok(Some(entry)),
        _ => Err(TakeFault::OutOfRange),
    }
}
