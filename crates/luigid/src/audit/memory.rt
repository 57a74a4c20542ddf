ghost use Rattle.std.specs.Prelude.{◌≡◌, ◌-◌, ◌<◌, [], ◌∷◌, ◌++◌, length, map, Some, None, OnOk, OnErr};
ghost use Rattle.lg_io.specs.Tells.{TellsOn};
ghost use Rattle.luigid.specs.Audit.{LifeTold};

use super::{Audit, LifeEnd};
use lg_base::NoMemory;
use lg_calls::State;
use lg_desk::Journal;
use std::alloc::Global;

/// A life that an audit was told of.
#[derive(Debug, Drop)]
pub struct AuditedLife {
    /// The state that it began with.
    pub base: State,
    /// Its journal and how it ended; none while it goes on.
    pub end: Option<(Journal, LifeEnd)>,
}

/// An audit that keeps the lives, for tests and rehearsals.
#[derive(Debug, Drop)]
pub struct MemoryAudit {
    lives: Vec<AuditedLife>,
}

impl MemoryAudit {
    ghost use Rattle.luigid.specs.MemoryAudit.{life_told};

    /// An audit that was told of no life.
    pub fn new(alloc: Global) -> MemoryAudit
        ensures { ⟦<MemoryAudit as Audit>⟧.lives result ≡ Some [] }
    {
        MemoryAudit {
            lives: Vec::new(alloc),
        }
    }

    /// The lives, in order.
    pub fn lives(&self) -> &[AuditedLife]
        ensures { ⟦<MemoryAudit as Audit>⟧.lives self.now ≡ Some (map life_told result.now) }
    {
        self.lives.as_slice()
    }
}

impl Audit for MemoryAudit {
    ghost use Rattle.luigid.specs.MemoryAudit.{life_told};
    ghost use Rattle.std.specs.Prelude.{map, Some};
    ghost use Rattle.lg_io.specs.Rest.{nothing};

    ghost lives = { λ audit. Some (map life_told audit.lives.items) };

    ghost rest = { λ _. nothing };

    fn begins(&mut self, _alloc: Global, base: &State) -> Result<(), NoMemory> {
        self.lives.push(AuditedLife {
            base: base.copy()?,
            end: None,
        })?;
        Ok(())
    }

    fn ends(&mut self, journal: Journal, end: LifeEnd) {
        let last = self.lives.len() - 1;
        self.lives[last].end = Some((journal, end));
    }
}
