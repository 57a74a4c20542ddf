//! `add_worker`.
ghost use Rattle.std.specs.Prelude.{codes};
ghost use Rattle.lg_calls.specs.Infos.{infos_in};
ghost use Rattle.lg_calls.specs.Methods.AddWorker.{add_worker};
ghost use Rattle.lg_calls.specs.Reading.{field, needed, Reads};

use crate::arguments::{Arguments, present, taken};
use crate::info::Info;
use crate::infos::infos_in;
use crate::refusal::PayloadFault;
use lg_base::{Name, Seq, WorkerId};

/// A worker tells of itself.
#[derive(Debug, Drop)]
pub struct AddWorker {
    /// The worker that asks.
    pub worker: WorkerId,
    /// What it tells, each with its name, in the order in which it was sent.
    pub info: Seq<(Name, Info)>,
}

impl AddWorker {
    /// Reads `worker`, a text, and `info`, an object or a list of pairs. Both have to be there.
    pub(crate) fn read(arguments: &mut Arguments) -> Result<AddWorker, PayloadFault>
        ensures { Reads add_worker arguments.old arguments.new result }
    {
        let worker = arguments.needed_text("worker")?;
        let info = needed_info(arguments)?;
        Ok(AddWorker {
            worker: WorkerId::from(worker),
            info,
        })
    }
}

fn needed_info(arguments: &mut Arguments) -> Result<Seq<(Name, Info)>, PayloadFault>
    ensures { Reads (needed infos_in (codes "info")) arguments.old arguments.new result }
{
    let info = read_info(arguments)?;
    present("info", info)
}

fn read_info(arguments: &mut Arguments) -> Result<Option<Seq<(Name, Info)>>, PayloadFault>
    ensures { Reads (field infos_in (codes "info")) arguments.old arguments.new result }
{
    let value = arguments.value("info");
    taken("info", infos_in(arguments.alloc(), value))
}
