//! What a root of actions did, heard and keeps: the nodes that it sent messages, the calls and includes that were
//! answered, the locks that naming granted, one binding for each object, the states that its constituents prepared; and
//! what of it survives in an action.
//!
//! It stands on `arj_tree`, `arj_bind` (what is kept of an object), `arj_commit` (the plan of a commit) and the definitions
//! of `arj_protocol`. What it gives upward: a `Root` is the protocol's root, and each call is the protocol's question or step
//! on it; the plan that it makes for a commit fits it. What a step of a call asks is asked of an index by node or object;
//! what a commit alone asks walks the lists.
#![tactic(auto)]

mod calls;
mod grants;
mod index;
mod joins;
mod keepings;
mod places;
mod questions;
mod root;
mod sends;
mod states;
mod survival;
mod trail;

pub use calls::{Call, Calls};
pub use grants::Grants;
pub use joins::{Join, Joins};
pub use questions::{least_grant, objects_in, top_uses};
pub use root::Root;
pub use sends::{Sends, Went};
pub use survival::{counts, is_kept_top, is_retained, survives};
pub use trail::Trail;
