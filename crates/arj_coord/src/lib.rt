//! The coordinator of a node: its actions, what each waits for, what each root has sent and heard, and the tolds of its
//! commits that aren't acknowledged.
//!
//! It is memory alone: what a call does is appended to a list of effects, lines, messages and work on the records of
//! commits, which the node then does in their order. It stands on the tree of actions (`arj_tree`), what a root keeps
//! (`arj_root`), the steps of calls and commits (`arj_bind`, `arj_commit`) and the definitions of `arj_protocol`. What it
//! gives upward: a `Coord` is the protocol's coordinator, and each call is the protocol's function on it, part and effects.
//! No call walks what has ended: the actions that wait are kept beside all of them.
#![tactic(auto)]

mod coord;
mod decided;
mod deciding;
mod doing;
mod doings;
mod effect;
mod effects;
mod ending;
mod ends;
mod laws;
mod now;
mod questions;
mod record;
mod records;
mod refusals;
mod roots;
mod tolds;

pub use coord::Coord;
pub use effect::Effect;
pub use effects::Effects;
pub use ending::EndLine;
pub use laws::doings_change_at_once;
pub use now::{Commit, Now};
pub use record::Record;
pub use records::Records;
