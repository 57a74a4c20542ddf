ghost use Rattle.std.specs.Prelude.{◌≡◌, IfOk};
ghost use Rattle.std.specs.String.{string_bytes};
ghost use Rattle.lg_taskid.specs.BatchId.{joined_ids, batch_id_of};

use crate::digest::md5_digits;
use lg_base::{NoMemory, TaskId, Text};
use std::alloc::{AllocError, Global};

/// The id of a batch of tasks, as Luigi 3's scheduler makes it: the MD5 (RFC 1321) of their ids, in their order and with
/// `|` between them, as 32 lower-case hexadecimal digits. Only want of memory is refused.
pub fn batch_id(alloc: Global, ids: &[TaskId]) -> Result<Text, NoMemory>
    ensures { IfOk result (λ id. id ≡ batch_id_of ids.now) }
{
    let joined = joined(alloc, ids)?;
    let digits = md5_digits(alloc, joined.as_bytes())?;
    Ok(Text::from_string(digits))
}

/// The ids in their order, with `|` between them.
fn joined(alloc: Global, ids: &[TaskId]) -> Result<String, AllocError>
    ensures { IfOk result (λ text. string_bytes text ≡ joined_ids ids.now) }
{
    let texts: Vec<&str> = ids.iter().map(|id| id.as_str()).collect(alloc)?;
    texts.join(alloc, "|")
}
