// The parts of a node.
use arj_coord::{Coord, Records};
use arj_serve::Services;
use std::alloc::Global;
use std::marker::Model;

/// The parts of a node that is up: its services, its coordinator, and the records of commits that its disk has. After a fault
/// they aren't used again, but made anew from what the disk has.
#[derive(Drop)]
pub struct NodeParts<O> {
    pub(crate) alloc: Global,
    pub(crate) services: Services<O>,
    pub(crate) coord: Coord,
    pub(crate) records: Records,
}

impl<O> Model for NodeParts<O> {
    ghost use Rattle.arj_parts.specs.Kept.{Kept};

    ghost Value = { Kept O };

    ghost view = { λ p. record { services = p.services; coord = p.coord; records = p.records } };
}
