//! The declarations of a file.
ghost use Rattle.std.specs.Prelude.{[], codes};
ghost use Rattle.toml.specs.Data.{get};
ghost use Rattle.toml.specs.View.{view, table_view};
ghost use Rattle.lg_declare.specs.Declaring.{Answers, seen};
ghost use Rattle.lg_declare.specs.Families.{families_of, declared, declared_in, document_of};
ghost use Rattle.lg_declare.specs.Reading.{read_or};

use crate::declare_fault::DeclareFault;
use crate::families::families_of;
use crate::family::Family;
use crate::values::only_keys;
use crate::words::TOP_KEYS;
use lg_base::Seq;
use std::alloc::Global;
use toml::{Table, Value};

/// The families of tasks that a file declares, in the order of their names' bytes.
#[derive(Debug, Drop)]
pub struct Declarations {
    pub families: Seq<Family>,
}

impl Declarations {
    /// The declarations that the bytes of a file say, or the first fault with its text.
    pub fn read(alloc: Global, bytes: &[u8]) -> Result<Declarations, DeclareFault>
        ensures { Answers (seen (λ declarations. declarations.families) result) (declared_in bytes.now) }
    {
        let table = table_of(alloc, bytes)?;
        let families = declared(alloc, table)?;
        Ok(Declarations { families })
    }
}

/// The table that the bytes write.
fn table_of(alloc: Global, bytes: &[u8]) -> Result<Table, DeclareFault>
    ensures { Answers (seen (λ table. table_view table) result) (document_of bytes.now) }
{
    match toml::table_from_slice(alloc, bytes) {
        Ok(table) => Ok(table),
        Err(error) if error.is_memory() => Err(DeclareFault::NoMemory),
        Err(_) => Err(DeclareFault::NotToml),
    }
}

fn declared(alloc: Global, table: Table) -> Result<Seq<Family>, DeclareFault>
    ensures { Answers result (declared (table_view table)) }
{
    only_keys(alloc, &TOP_KEYS, &table)?;
    families_at(alloc, &Value::Table(table))
}

fn families_at(alloc: Global, top: &Value) -> Result<Seq<Family>, DeclareFault>
    ensures { Answers result (read_or [] families_of (get (codes "task") (view top.now))) }
{
    match top.get("task") {
        Some(families) => families_of(alloc, families),
        None => Ok(Seq::new(alloc)),
    }
}
