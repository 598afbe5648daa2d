//! The parts of a node over its disk: how they begin, over an empty disk and over what a disk has, how they take a message,
//! what they do with what its actions are asked to do, at ticks and at shows, and how what a coordinator did is done.
//!
//! It stands on `arj_serve` (the services of a node), `arj_coord` and `arj_asking` (its coordinator, and what that asks),
//! `arj_intent` (records on a disk), `arj_recover` (what a node's files say) and `arj_node` (what parts hand back). What it
//! gives upward: `NodeParts` over the shadow store are `Parts`, so that a node over them is a core. With the files of its
//! disk they are the protocol's parts over the protocol's disk (`specs/Kept.antt`); a call takes a message, or does what an
//! action is asked to do, as the protocol's node does it, hands back what follows, and stands on what the work leaves; a
//! void message changes nothing; where the disk stops, it is a cut of that (`specs/Calls.antt`, `specs/Acted.antt`);
//! `format` and `restart` are the protocol's first node, and its restart (`specs/Begun.antt`). `perform` does what a
//! coordinator did (`specs/Records.antt`).
#![tactic(auto)]

mod acts;
mod answers;
mod beginnings;
mod parts;
mod performing;
mod requests;
mod said;
mod take;
mod ticks;
mod whole;

pub use beginnings::{format, restart};
pub use parts::NodeParts;
pub use performing::perform;
