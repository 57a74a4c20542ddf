//! `update_resources`.
ghost use Rattle.std.specs.FinMap.{empty};
ghost use Rattle.lg_calls.specs.Methods.UpdateResources.{limits_from, update_resources};
ghost use Rattle.lg_calls.specs.Reading.{Reads};

use crate::arguments::Arguments;
use crate::ranges::refused;
use crate::refusal::{ArgumentName, PayloadFault};
use lg_base::Amounts;
use lg_json::amount_of;

/// Sets the limits of resources.
#[derive(Debug, Drop)]
pub struct UpdateResources {
    /// The limit of each.
    pub limits: Amounts,
}

impl UpdateResources {
    /// Reads each field, a name with an amount from 0 to 4,294,967,295, in the order of the names' bytes. A refusal names
    /// the field.
    pub(crate) fn read(arguments: &mut Arguments) -> Result<UpdateResources, PayloadFault>
        ensures { Reads update_resources arguments.old arguments.new result }
    {
        let limits = limits_of(arguments)?;
        Ok(UpdateResources { limits })
    }
}

fn limits_of(arguments: &mut Arguments) -> Result<Amounts, PayloadFault>
    ensures { Reads (limits_from empty) arguments.old arguments.new result }
{
    let mut limits = Amounts::new(arguments.alloc());
    while let Some((name, value)) = arguments.first() {
        match amount_of(&value) {
            Ok(amount) => limits.put(name, amount)?,
            Err(fault) => return Err(refused(ArgumentName::from(name), fault)),
        }
    }
    Ok(limits)
}
