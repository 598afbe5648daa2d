//! How things stand behind a part of a journal: who holds which locks at a node, and what is prepared there.
//!
//! It stands on `arj_model`, whose definitions say what a journal shows. What it gives upward: `NodeLocks` goes line by line,
//! and its locks are `table` of the lines so far (`arj_model/specs/Table.antt`); `note_doubts` keeps what is prepared and not done
//! (`specs/Doubts.antt`).
#![tactic(auto)]

mod begun;
mod doubts;
mod held;
mod node;
mod path;
mod rows;
mod told;

pub use begun::{Begun, Link, begin};
pub use doubts::{Doubt, note_doubts};
pub use held::Held;
pub use node::NodeLocks;
pub use path::{path_named, path_of, top_of};
