//! The active objects of a server: activation, operations in their locks, and what each end of an action makes of
//! them, under nested atomic actions.
//!
//! An active object is the state that was activated or last committed here, over it one value for each open action that
//! wrote it, the deepest first, and a lock table. An action's own value is its overlay, and what stands under it is the
//! image that an abort goes back to: so an abort takes values out, a nested commit hands one to the parent, and neither
//! asks for memory.
//!
//! An index has, under each action on the path of a lock or of an overlay, the objects there: so an end, a vote or a
//! question about an action looks at these alone. An operation notes its object under each action of its path, and so
//! the end of a nested one has nothing to hand to its parent's entry.
//!
//! It stands on `arj_class` (values), `arj_lock` (lock tables), `arj_record` (for a law) and the definitions of
//! `arj_protocol`. What it gives upward: a `StateManager` is a server's list of copies as the protocol has it, and
//! `activate`, `invoke`, `commit`, `abort`, `changed_states`, `holds`, `is_top` and `held` are the protocol's functions
//! on it: new state, lines and answer. All faults leave it as it was. And laws: under every list of calls on an object
//! the overlays, and the value in place with the before-images, are two views of one stack (`views_agree`), and lists
//! of records are a third one (`records_agree`).
#![tactic(auto)]

mod fault;
mod index;
mod laws;
mod manager;
mod object;
mod overlay;
mod ran;
mod tops;
mod walk;

pub use fault::ManagerFault;
pub use laws::{aborts_agree, records_agree, views_agree};
pub use manager::StateManager;
pub use object::ActiveObject;
pub use ran::Ran;
