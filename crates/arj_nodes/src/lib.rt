//! All nodes under a script: the world as a machine of the loop.
//!
//! It stands on `arj_loop`, which reads, runs and writes over a machine, and on `arj_world`, which is that machine here. The
//! contract that it gives upward is that of the machine, over any core of a node: the journal is the protocol's run of the
//! events with the stops that the disks made, and each disk was armed as they asked (`specs/AllNodes.antt`).
#![tactic(auto)]

mod all_nodes;
mod told;

pub use all_nodes::AllNodes;
pub use told::journals_tell_of_disks;
