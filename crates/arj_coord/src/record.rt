// What a record of a commit says.
use arj_base::{NodeList, Uid};
use std::marker::Model;

/// What a record of a commit says, or what of it isn't acknowledged: the root of the commit's top, and nodes that take
/// part in the commit, increasing. Contracts see the protocol's `Intent`.
#[derive(Drop)]
pub struct Record {
    pub root: Uid,
    pub nodes: NodeList,
}

impl Model for Record {
    ghost use Rattle.arj_protocol.specs.Effect.{Intent};

    ghost Value = { Intent };

    ghost view = { λ r. record { root = r.root; nodes = r.nodes } };
}
