//! Arguments of which not every value is in range.
ghost use Rattle.std.specs.Prelude.{◌≡◌, IsTrue, IfOk, IfSome};
ghost use Rattle.lg_calls.specs.Ranges.{known_as, fault_of, count, count_from, is_count};
ghost use Rattle.lg_calls.specs.Reading.{Reads};

use crate::arguments::{Arguments, out_of_range};
use crate::refusal::{ArgumentName, PayloadFault, Refusal};
use lg_json::TakeFault;

/// What an argument stands for; one that stands for nothing is out of range.
pub(crate) fn known<A>(name: &'static str, value: Option<A>) -> Result<A, PayloadFault>
    ensures { result ≡ known_as name.now value }
{
    match value {
        Some(value) => Ok(value),
        None => Err(out_of_range(name)),
    }
}

/// The refusal of an argument that couldn't be taken.
pub(crate) fn refused(name: ArgumentName, fault: TakeFault) -> PayloadFault
    ensures { result ≡ fault_of name fault }
{
    match fault {
        TakeFault::WrongKind => PayloadFault::Refused(Refusal::WrongKind(name)),
        TakeFault::OutOfRange => PayloadFault::Refused(Refusal::OutOfRange(name)),
        TakeFault::NoMemory => PayloadFault::NoMemory,
    }
}

/// A count that may be absent: a whole number from `least` to 2^63 - 1. One that is less is out of range.
pub(crate) fn count(
    arguments: &mut Arguments,
    name: &'static str,
    least: u64,
) -> Result<Option<u64>, PayloadFault>
    ensures read { Reads (count least name.now) arguments.old arguments.new result }
    ensures in_range { IfOk result (λ counted. IsTrue (is_count least counted)) }
{
    let asked = arguments.int(name)?;
    known(name, count_from(least, asked))
}

fn count_from(least: u64, asked: Option<i64>) -> Option<Option<u64>>
    ensures value { result ≡ count_from least asked }
    ensures in_range { IfSome result (λ counted. IsTrue (is_count least counted)) }
{
    let Some(asked) = asked else {
        return Some(None);
    };
    match u64::try_from(asked) {
        Ok(counted) if counted >= least => Some(Some(counted)),
        _ => None,
    }
}
