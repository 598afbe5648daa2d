//! What nodes run over disks that stop when they will is a run of the protocol, and shows the promise.
//!
//! `nodes/` has runs and banks, `cores/` what the program's own files say, `delivery/` that each frame goes to a
//! node, which takes it or says void.
//!
//! What it gives upward: `banks_show_what_is_promised`, `cores_say_their_readings`, `deliveries_are_taken`,
//! `events_owe_their_lines`, `nodes_run_moves`, `nodes_show_what_is_promised`.
#![tactic(auto)]

mod banks;
mod cores_cores;
mod deliveries;
mod turns;

pub use banks::banks_show_what_is_promised;
pub use cores_cores::cores_say_their_readings;
pub use deliveries::{deliveries_are_taken, events_owe_their_lines};
pub use turns::{nodes_run_moves, nodes_show_what_is_promised};
