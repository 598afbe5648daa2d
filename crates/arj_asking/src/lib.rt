//! What a coordinator asks: what it does when an action begins, calls an object, includes a store, commits and gives up,
//! when a request is answered, and what it asks again at a tick.
//!
//! It stands on the coordinator (`arj_coord`), what a root has (`arj_root`), the steps of calls and commits (`arj_bind`,
//! `arj_commit`) and the definitions of `arj_protocol`. What it gives upward: each call is the protocol's function on the
//! coordinator, part and effects, with the effects appended to those that are there; of want of memory it says nothing. A
//! step costs what it touches, and a tick walks what waits.
#![tactic(auto)]

mod answers;
mod begins;
mod calls;
mod commits;
mod giving;
mod lines;
mod requests;
mod rooms;
mod ticks;

pub use answers::{asker_has_room, heard, is_meant};
pub use begins::begin_action;
pub use calls::{call, include};
pub use commits::commit_action;
pub use giving::give_up;
pub use rooms::has_room;
pub use ticks::again_all;
