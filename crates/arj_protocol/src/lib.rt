//! What a node does at each message, call and restart, and what all nodes do under a script: the protocol, as definitions
//! that compute. Nothing runs here: `specs/` has the definitions, `proofs/` what follows from them, and worked runs.
//!
//! It stands on the types of lines (`arj_journal`), messages (`arj_msg`), paths, modes and lock rows (`arj_base`), classes
//! (`arj_class`), naming entries (`arj_entry`), and on `arj_start` for what a run begins with and for its limits. What it gives
//! upward: the code is to be proved equal to it, part by part, and the promises over it, with no code in sight. The laws here
//! are of one step: it is its node's alone, what a message doesn't speak of stays, and locks follow the lines where messages
//! name actions by their own paths.
#![tactic(auto)]

mod laws;

pub use laws::{
    events_only_add, messages_leave_other_objects, messages_read_back, names_compare_as_numbers,
    naming_locks_follow_lines, parts_act_alone, payloads_read_back, rounds_leave_nothing,
    server_locks_follow_lines, steps_are_local, unknown_ends_change_nothing,
};
