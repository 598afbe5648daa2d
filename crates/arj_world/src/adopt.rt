// All nodes, as a run goes on from what their disks have.
ghost use Rattle.std.specs.Prelude.{◌≡◌, ◌≤◌, [], IfOk};
ghost use Rattle.arj_protocol.specs.World as protocol;
ghost use Rattle.arj_start.specs.Start.{Start};
ghost use Rattle.arj_world.specs.First.{AreAtRest};
ghost use Rattle.arj_world.specs.Stands.{Stands, hand};

use crate::World;
use crate::wire::Wire;
use arj_core::Core;
use arj_disk::{Disk, Rack};
use arj_journal::{Header, Label};
use std::alloc::{AllocError, Global};
use std::collections::{BTreeMap, BTreeSet};

impl<C: Core + Drop> World<C> {
    /// All nodes, each down over what its disk has, with no frame, in a run before which these labels were given. No disk is called.
    /// It is the world of each start whose disks these are.
    pub fn adopt<D: Disk>(
        alloc: Global,
        header: Header,
        given: BTreeSet<Label>,
        _rack: &Rack<D>,
    ) -> Result<World<C>, AllocError>
        requires least { 1 ≤ header.nodes }
        requires greatest { header.nodes ≤ 16 }
        ensures stands { IfOk result (λ world. (st : Start) → AreAtRest C.Core D.file header st given.keys _rack.now → Stands C.Core D.file (hand world _rack.now []) (protocol.world_from header st)) }
        ensures header { IfOk result (λ world. world.header ≡ header) }
    {
        let mut cores = Vec::new(alloc);
        for node in 0..header.nodes {
            cores.push(C::down(alloc, node + 1, &header)?)?;
        }
        Ok(World {
            alloc,
            header,
            cores,
            wire: Wire::new(alloc),
            labels: BTreeMap::new(alloc),
            given,
        })
    }
}
