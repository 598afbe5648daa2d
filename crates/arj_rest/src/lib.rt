//! Whether the nodes of an image are at rest: its counts, its lines and its files fit each other, and each node is halted.
//!
//! It stands on `arj_saved`, which reads the files, and on `arj_clean`, which has what is kept of a journal. What it gives upward:
//! `do_nodes_fit` is true exactly where `NodesFit` holds, and `are_listed` exactly where each object has a listed store, and none twice
//! (`specs/Nodes.antt`).
#![tactic(auto)]

mod nodes;

pub use nodes::{are_listed, do_nodes_fit};
