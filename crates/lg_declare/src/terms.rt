//! What the scheduler is told of a family's tasks: numbers.
ghost use Rattle.std.specs.Prelude.{◌≡◌, ◌≤◌, IfOk, IfSome, codes, option_and_then};
ghost use Rattle.std.specs.FinMap.{empty};
ghost use Rattle.toml.specs.Data.{as_integer};
ghost use Rattle.toml.specs.View.{view, table_view};
ghost use Rattle.lg_declare.specs.Declaring.{Answers};
ghost use Rattle.lg_declare.specs.Terms.{count_at, some_count_at, count_in, amounts_from, amounts_of, resources_in, priority_in, retries_in, terms_in, within};

use crate::declare_fault::DeclareFault;
use crate::family::Retries;
use crate::values::{integer_at, members_at, name_of};
use lg_base::Amounts;
use std::alloc::Global;
use toml::{Table, Value};

/// What the scheduler is told of a family's tasks.
#[derive(Drop)]
pub(crate) struct Terms {
    pub resources: Amounts,
    pub priority: i64,
    pub retries: Retries,
    pub max_batch_size: Option<u64>,
}

pub(crate) fn terms_in(alloc: Global, family: &Value) -> Result<Terms, DeclareFault>
    ensures { Answers result (terms_in (view family.now)) }
{
    let resources = resources_in(alloc, family)?;
    let priority = priority_in(alloc, family)?;
    let retries = retries_in(alloc, family)?;
    let max_batch_size = count_in(alloc, "max_batch_size", 1, 9223372036854775807, family)?;
    Ok(Terms {
        resources,
        priority,
        retries,
        max_batch_size,
    })
}

fn resources_in(alloc: Global, family: &Value) -> Result<Amounts, DeclareFault>
    ensures { Answers result (resources_in (view family.now)) }
{
    match family.get("resources") {
        Some(value) => amounts_of(alloc, value),
        None => Ok(Amounts::new(alloc)),
    }
}

fn amounts_of(alloc: Global, value: &Value) -> Result<Amounts, DeclareFault>
    ensures { Answers result (amounts_of (view value.now)) }
{
    let members = members_at(alloc, "resources", value)?;
    amounts_in(alloc, members)
}

fn amounts_in(alloc: Global, members: &Table) -> Result<Amounts, DeclareFault>
    ensures { Answers result (amounts_from empty (table_view members.now)) }
{
    let mut amounts = Amounts::new(alloc);
    for (name, value) in members {
        let amount = amount_at(alloc, value)?;
        let name = name_of(alloc, name.as_str())?;
        amounts.put(name, amount)?;
    }
    Ok(amounts)
}

/// An amount, from 0 to 2^32 - 1.
fn amount_at(alloc: Global, value: &Value) -> Result<u32, DeclareFault>
    ensures { Answers result (count_at (codes "resources") 0 4294967295 (view value.now)) }
{
    let amount = count_at(alloc, "resources", 0, 4294967295, value)?;
    Ok(amount as u32)
}

/// A whole number from `low` to `high`.
fn count_at(
    alloc: Global,
    key: &str,
    low: u64,
    high: u64,
    value: &Value,
) -> Result<u64, DeclareFault>
    ensures due { Answers result (count_at key.now low high (view value.now)) }
    ensures bound { IfOk result (λ count. count ≤ high) }
{
    match count_of(low, high, value) {
        Some(count) => Ok(count),
        None => Err(DeclareFault::bad_value(alloc, key)),
    }
}

fn count_of(low: u64, high: u64, value: &Value) -> Option<u64>
    ensures same { result ≡ option_and_then (within low high) (as_integer (view value.now)) }
    ensures bound { IfSome result (λ count. count ≤ high) }
{
    within(low, high, value.as_integer()?)
}

fn within(low: u64, high: u64, number: i64) -> Option<u64>
    ensures same { result ≡ within low high number }
    ensures bound { IfSome result (λ count. count ≤ high) }
{
    match u64::try_from(number) {
        Ok(count) if low <= count && count <= high => Some(count),
        _ => None,
    }
}

fn priority_in(alloc: Global, family: &Value) -> Result<i64, DeclareFault>
    ensures { Answers result (priority_in (view family.now)) }
{
    match family.get("priority") {
        Some(value) => integer_at(alloc, "priority", value),
        None => Ok(0),
    }
}

/// Counts, and seconds, each from 0 to 10^12.
fn retries_in(alloc: Global, family: &Value) -> Result<Retries, DeclareFault>
    ensures { Answers result (retries_in (view family.now)) }
{
    let retry_count = count_in(alloc, "retry_count", 0, 1_000_000_000_000, family)?;
    let disable_window = count_in(alloc, "disable_window", 0, 1_000_000_000_000, family)?;
    let disable_hard_timeout = count_in(
        alloc,
        "disable_hard_timeout",
        0,
        1_000_000_000_000,
        family,
    )?;
    Ok(Retries {
        retry_count,
        disable_window,
        disable_hard_timeout,
    })
}

fn count_in(
    alloc: Global,
    key: &str,
    low: u64,
    high: u64,
    family: &Value,
) -> Result<Option<u64>, DeclareFault>
    ensures { Answers result (count_in key.now low high (view family.now)) }
{
    match family.get(key) {
        Some(value) => some_count_at(alloc, key, low, high, value),
        None => Ok(None),
    }
}

fn some_count_at(
    alloc: Global,
    key: &str,
    low: u64,
    high: u64,
    value: &Value,
) -> Result<Option<u64>, DeclareFault>
    ensures { Answers result (some_count_at key.now low high (view value.now)) }
{
    let count = count_at(alloc, key, low, high, value)?;
    Ok(Some(count))
}
