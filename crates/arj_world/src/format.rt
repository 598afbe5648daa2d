// All nodes, as a run begins.
ghost use Rattle.std.specs.Prelude.{◌≡◌, ◌≤◌, ◌-◌, [], None, Some, IfOk, IsErrOf, All, slice_get};
ghost use Rattle.arj_disk.specs.declared.slot.Slot.{Slot};
ghost use Rattle.arj_journal.specs.ScriptForm.{HeaderInForm};
ghost use Rattle.arj_protocol.specs.World as protocol;
ghost use Rattle.arj_world.specs.Disks.{HasStopped, HaveMoved, HaveNotStopped};
ghost use Rattle.arj_world.specs.First.{Formatted};
ghost use Rattle.arj_world.specs.Stands.{Stands, hand};

use crate::wire::Wire;
use crate::{FormatFault, World};
use arj_core::{Core, CoreFault};
use arj_disk::{Disk, Rack};
use arj_journal::Header;
use std::alloc::Global;
use std::collections::{BTreeMap, BTreeSet};

// Formats a node over its empty disk.
#[tactic(auto, using(crate::proofs::Disks::moved_call, crate::proofs::Disks::stopped_at))]
fn format_node<C: Core, D: Disk>(
    alloc: Global,
    node: u8,
    header: &Header,
    rack: &mut Rack<D>,
) -> Result<C, FormatFault>
    requires least { 1 ≤ node }
    requires greatest { node ≤ header.now.nodes }
    requires form { HeaderInForm header.now }
    requires empty { (d : D) → slice_get rack.old (node - 1) ≡ Some d → (slot : Slot) → D.file d slot ≡ None }
    ensures formatted { IfOk result (λ core. Formatted C.Core D.file header.now node core rack.old rack.new) }
    ensures disks { HaveMoved D.Disk header.now.nodes [] rack.old rack.new }
    ensures stopped { IsErrOf result FormatFault.Stopped → HasStopped D.Disk rack.old rack.new }
    ensures unstopped { (IsErrOf result FormatFault.Stopped → ⊥) → HaveNotStopped D.Disk rack.old rack.new }
{
    match C::format(alloc, node, header, rack.disk(node)) {
        Ok(core) => Ok(core),
        Err(CoreFault::Halted) => Err(FormatFault::Stopped),
        Err(CoreFault::Memory) => Err(FormatFault::Memory),
    }
}

impl<C: Core + Drop> World<C> {
    /// All nodes over empty disks, up in incarnation 1, with the header's states and entries, no frame and no label. Stopped:
    /// a disk was stopped; at any other answer none was. No disk was armed, and those of no node are as they were.
    pub fn format<D: Disk>(
        alloc: Global,
        header: Header,
        rack: &mut Rack<D>,
    ) -> Result<World<C>, FormatFault>
        requires form { HeaderInForm header }
        requires empty { All (λ d. (slot : Slot) → D.file d slot ≡ None) rack.old }
        ensures stands { IfOk result (λ world. Stands C.Core D.file (hand world rack.new []) (protocol.format header)) }
        ensures disks { HaveMoved D.Disk header.nodes [] rack.old rack.new }
        ensures stopped { IsErrOf result FormatFault.Stopped → HasStopped D.Disk rack.old rack.new }
        ensures unstopped { (IsErrOf result FormatFault.Stopped → ⊥) → HaveNotStopped D.Disk rack.old rack.new }
    {
        let mut cores = Vec::new(alloc);
        for node in 0..header.nodes {
            cores.push(format_node(alloc, node + 1, &header, rack)?)?;
        }
        Ok(World {
            alloc,
            header,
            cores,
            wire: Wire::new(alloc),
            labels: BTreeMap::new(alloc),
            given: BTreeSet::new(alloc),
        })
    }
}
