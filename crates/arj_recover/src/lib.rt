//! What a node does on its disk as it begins, and as it is back after a stop.
//!
//! A restart goes before anything else the node does: the incarnation rises on the disk, the node is said to be up, and its
//! store is recovered; then, behind what naming does at node 1, the records of commits are read and said. `format` puts
//! the first states of a node.
//!
//! It stands on `arj_store`, `arj_intent`, the laws of `arj_law_store` and the definitions of `arj_protocol`. What it gives
//! upward: what a node's files say of the disk that the protocol has (`specs/OnDisk.antt`), and that each call does the
//! work of the protocol's restart, done or cut where it was stopped (`specs/Done.antt`); `restarts_go_in_order` says that
//! these, in their order, are the whole of it.
#![tactic(auto)]

mod beginning;
mod commits;
mod first;
mod laws;

pub use beginning::{Recovered, restart};
pub use commits::resume;
pub use first::{format, format_inc};
pub use laws::restarts_go_in_order;
