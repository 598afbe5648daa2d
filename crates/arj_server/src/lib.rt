//! The server part of a node: active copies of objects, on which actions of other nodes operate.
//!
//! It keeps the active objects, of each action the last request with its answer, the ends that it was told, and the tops
//! that it voted for. All of it goes when the node stops; its incarnation tells.
//!
//! It stands on `arj_manager` (active objects), `arj_msg` (messages), `arj_journal` (lines) and the definitions of
//! `arj_protocol`. What it gives upward: a `Server` is the protocol's server, and `activate`, `invoke`, `vote` and `told` are
//! the protocol's functions on it: new state, lines and answer, and no answer exactly where the message is void. And laws:
//! `locks_follow_lines`: its locks are changed by the lines that it appends, and by these alone;
//! `messages_are_void_exactly`, `repeats_change_nothing`, `a_yes_is_of_one_life` and `classes_stay`.
#![tactic(auto)]

mod kept;
mod laws;
mod server;

pub use laws::{
    a_yes_is_of_one_life, classes_stay, lines_are_all, locks_follow_lines,
    messages_are_void_exactly, repeats_change_nothing,
};
pub use server::Server;
