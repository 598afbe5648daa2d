//! One node: how a step of it goes through, over whatever its parts are.
//!
//! Its parts, while it is up, are a server, naming at node 1 and a coordinator, with their files. They are behind the trait
//! `Parts`: each of its calls is the protocol's function on them, and hands back what is to be put out. Here stands what
//! makes a step of that: messages are decoded and encoded, each once; what the node sends to itself is handled in rounds,
//! first sent first; and where the disk stops, what was done before is put out, and the node is down until its restart.
//!
//! It stands on `arj_core`, `arj_msg` and the definitions of `arj_protocol`. What it gives upward: `NodeCore` over any
//! `Parts` is a core (`arj_core::Core`): each step, whatever the input, is the protocol's, or a cut of it
//! (`specs/Lives.antt`).
#![tactic(auto)]

mod act;
mod acting;
mod delivery;
mod node;
mod outgoing;
mod parts;
mod putting;
mod roster;
mod rounds;
mod sendable;

pub use act::Act;
pub use delivery::deliver;
pub use node::NodeCore;
pub use outgoing::{Handed, Outgoing, Outgoings};
pub use parts::Parts;
pub use roster::Roster;
pub use rounds::settle;
