ghost use Rattle.std.specs.Prelude.{◌≡◌, IfOk};
ghost use Rattle.lg_taskid.specs.TaskId.{task_id_of};

use crate::digest::short_hash;
use crate::summary::push_summary;
use lg_base::{Name, NoMemory, TaskId, Text};
use lg_json::canonical;
use std::alloc::Global;

/// The id of a family's task with these parameters, in Luigi's own form (Luigi 3, `luigi.task.task_id_str`): the family,
/// a summary of the first three values, and the first ten digits of the MD5 (RFC 1321) of the canonical text, with `_`
/// between them. The family isn't hashed.
///
/// Whoever asks gives the significant parameters alone, each name once, in the order of the names' bytes: pairs are taken
/// as they stand. Only want of memory is refused.
pub fn task_id(alloc: Global, family: &Name, pairs: &[(Name, Text)]) -> Result<TaskId, NoMemory>
    ensures { IfOk result (λ id. id ≡ task_id_of family.now pairs.now) }
{
    let canonical = canonical(alloc, pairs)?;
    let hash = short_hash(alloc, canonical.bytes())?;
    let mut id = String::from_str(alloc, family.as_str())?;
    id.push('_')?;
    push_summary(&mut id, pairs)?;
    id.push('_')?;
    id.push_str(hash.as_str())?;
    Ok(TaskId::from(Text::from_string(id)))
}
