ghost use Rattle.std.specs.Prelude.{◌≡◌, All, option_map, map, Some, None, [], ◌∷◌, IfOk, IsErr, IsErrOf, OnOk, OnErr, length};
ghost use Rattle.lg_io.specs.declared.net.BindFault.TheVariants.{Failed};
ghost use Rattle.lg_io.specs.CallList.{with_call};
ghost use Rattle.lg_io.specs.Cause.{HasCause};
ghost use Rattle.lg_io.specs.MemoryDoor.{IsUnusedDoor};
ghost use Rattle.lg_io.specs.MemoryNet.{net_log, net_binds, net_faults, net_unwritten, net_doors, net_fails, door_ahead, BindsByScript};
ghost use Rattle.lg_io.specs.Tells.{TellsOn};

use super::{CallList, FaultPlan, MemoryDoor};
use crate::{BindFault, Clock, Net};
use lg_base::{NoMemory, Tally, Text};
use std::alloc::Global;
use std::mem;

/// A call of `bind`.
#[derive(Debug, Drop)]
pub struct BindEvent {
    pub address: Text,
    pub port: u16,
    pub doors: u16,
}

/// A net that hands out the doors that it was made with, begun anew. A `bind` that asks for more than are left fails.
#[derive(Drop)]
pub struct MemoryNet<P> {
    doors: Vec<MemoryDoor<P>>,
    plan: P,
    lacks: Tally,
    unwritten: Tally,
    binds: CallList<BindEvent>,
}

impl<P: FaultPlan> MemoryNet<P> {
    /// A net of these doors with room for so many calls of `bind`; past it the net tells nothing of them.
    pub fn new(
        alloc: Global,
        doors: Vec<MemoryDoor<P>>,
        plan: P,
        room: usize,
    ) -> Result<MemoryNet<P>, NoMemory>
        ensures binds { IfOk result (λ net. net_binds net ≡ Some []) }
        ensures room { IfOk result (λ net. (net_log net).room ≡ room) }
        ensures faults { IfOk result (λ net. net_faults P.faults net ≡ P.faults plan) }
        ensures doors { IfOk result (λ net. net_doors net ≡ doors.items) }
        ensures fails { IfOk result (λ net. net_fails P.due net ≡ P.due plan) }
    {
        Ok(MemoryNet {
            binds: CallList::with_room(alloc, room)?,
            doors,
            plan,
            lacks: Tally::none(),
            unwritten: Tally::none(),
        })
    }

    /// The calls of `bind`, while they are told.
    pub fn binds(&self) -> Option<&[BindEvent]>
        ensures { option_map (λ s. s.now) result ≡ (net_log self.now).told }
    {
        self.binds.told()
    }

    // Tells a call, while there is room; where there is no memory for its address it tells nothing any more.
    fn tell(&mut self, alloc: Global, address: &Text, port: u16, doors: u16) -> Result<(), NoMemory>
        ensures told { OnOk result (net_log self.new
            ≡ with_call (net_log self.old) (record { address = address.now; port = port; doors = doors })) }
        ensures untold { OnErr result (net_binds self.new ≡ None) }
        ensures cause { HasCause (net_unwritten self.old) (net_unwritten self.new) (IsErr result) }
        ensures doors { self.new.doors ≡ self.old.doors }
        ensures plan { self.new.plan ≡ self.old.plan }
        ensures lacks { self.new.lacks ≡ self.old.lacks }
    {
        let Ok(address) = Text::copied(alloc, address.as_str()) else {
            self.unwritten = self.unwritten.with_one_more();
            self.binds.lose();
            return Err(NoMemory);
        };
        self.binds.add(BindEvent {
            address,
            port,
            doors,
        });
        Ok(())
    }
}

impl<P: FaultPlan + Send> Net for MemoryNet<P> {
    type Door = MemoryDoor<P>;

    ghost binds = { net_binds };

    ghost faults = { net_faults P.faults };

    fn bind(
        &mut self,
        alloc: Global,
        address: &Text,
        port: u16,
        n: u16,
    ) -> Result<Vec<MemoryDoor<P>>, BindFault>
        ensures count { IfOk result (λ doors. length doors.items ≡ n) }
        ensures unused { IfOk result (λ doors. All (IsUnusedDoor P.faults) doors.items) }
        ensures told { TellsOn (net_binds self.old) (net_binds self.new)
            (record { address = address.now; port = port; doors = n } ∷ []) }
        ensures cause { HasCause (net_faults P.faults self.old) (net_faults P.faults self.new)
            (IsErrOf result Failed) }
        ensures follows { BindsByScript P.due P.script self.old self.new
            (record { address = address.now; port = port; doors = n }) result }
    {
        let told = self.tell(alloc, address, port, n);
        if self.plan.is_due() {
            return Err(BindFault::Failed);
        }
        let wanted = usize::from(n);
        if self.doors.len() < wanted {
            self.lacks = self.lacks.with_one_more();
            return Err(BindFault::Failed);
        }
        if told.is_err() {
            return Err(BindFault::NoMemory);
        }
        let Ok(left) = self.doors.split_off(wanted) else {
            return Err(BindFault::NoMemory);
        };
        let mut doors = mem::replace(&mut self.doors, left);
        restart_all(&mut doors);
        Ok(doors)
    }
}

/// Begins each door anew.
fn restart_all<P: FaultPlan>(doors: &mut [MemoryDoor<P>])
    ensures unused { All (IsUnusedDoor P.faults) doors.new }
    ensures ahead { map (door_ahead P.due) doors.new ≡ map (door_ahead P.script) doors.old }
    ensures count { length doors.new ≡ length doors.old }
{
    for door in doors.iter_mut() {
        door.restart();
    }
}
