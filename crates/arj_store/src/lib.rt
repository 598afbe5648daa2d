//! The object store of a node: the committed states of its objects and the new states that actions have prepared.
//!
//! It stands on `arj_disk` and `arj_base`. What it gives upward: the contract of the trait `ObjectStore` on the pair
//! of committed and prepared states that a disk says, at each exit of each call (`specs/Pair.antt`); and
//! `ShadowStore`, which keeps a new state beside the committed one until its action commits.
#![tactic(auto)]

mod answer;
mod laws;
mod memory;
mod moves;
mod packed;
mod prepare;
mod recovery;
mod shadow;
mod store;
mod table;

pub use answer::{Found, Pends, Prep, Read, StoreFault};
pub use laws::{calls_are_effects, known_objects, lists_are_determined};
pub use packed::state_in;
pub use prepare::{objects_of_states, refused_by};
pub use shadow::ShadowStore;
pub use store::ObjectStore;
pub use table::Table;
