//! `update_resource`.
ghost use Rattle.std.specs.Prelude.{◌≡◌, IfOk, IsTrue};
ghost use Rattle.lg_calls.specs.Methods.UpdateResource.{is_amount, update_resource, update_resource_in_range};
ghost use Rattle.lg_calls.specs.Reading.{Reads};

use crate::arguments::{Arguments, out_of_range};
use crate::refusal::PayloadFault;
use lg_base::Name;

/// The largest limit of a resource.
const MAX_AMOUNT: i64 = 4_294_967_295;

/// Sets the limit of a resource.
#[derive(Debug, Drop)]
pub struct UpdateResource {
    /// The resource.
    pub resource: Name,
    /// The limit, at most 4,294,967,295; one below 0 isn't set.
    pub amount: i64,
}

impl UpdateResource {
    /// Reads `resource`, a text, and `amount`, a whole number of 64 bits, at most `MAX_AMOUNT`. Both have to be there.
    pub(crate) fn read(arguments: &mut Arguments) -> Result<UpdateResource, PayloadFault>
        ensures read { Reads update_resource arguments.old arguments.new result }
        ensures in_range { IfOk result (λ ask. IsTrue (update_resource_in_range ask)) }
    {
        let resource = arguments.needed_text("resource")?;
        let amount = arguments.needed_int("amount")?;
        if !is_amount(amount) {
            return Err(out_of_range("amount"));
        }
        Ok(UpdateResource {
            resource: Name::from(resource),
            amount,
        })
    }
}

fn is_amount(amount: i64) -> bool
    ensures { result ≡ is_amount amount }
{
    amount <= MAX_AMOUNT
}
