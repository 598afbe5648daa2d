//! What naming, servers and coordinators keep by themselves, whatever messages come; and how that goes through steps,
//! events and runs.
//!
//! `parts/` has the invariants of each part and of a node, `told/` that what is told of ends has a frame, `moves/`
//! runs of moves, with a relation on what is seen of a world that each handler keeps (`Keeps`; with the history of the
//! run `KeepsWith`), and `steps/` which lines an event leaves. Each folder's paragraph stands in its list of modules in `proofs/`.
//!
//! What it gives upward: `ends_write_their_lines`, `events_write_their_lines`, `only_crashes_say_halted`,
//! `messages_have_their_lines`, `naming_stays_good`, `calls_keep_their_locks`.
#![tactic(auto)]

mod events;
mod framed;
mod naming;
mod server;

pub use events::{ends_write_their_lines, events_write_their_lines, only_crashes_say_halted};
pub use framed::messages_have_their_lines;
pub use naming::naming_stays_good;
pub use server::calls_keep_their_locks;
