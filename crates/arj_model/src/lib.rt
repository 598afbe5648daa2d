//! What a journal shows, as definitions: its actions and calls, the serial order, last states, the lock table of a node,
//! what it is for a journal to follow the events of a script, causes, what stands on the disks beside it, and with what a run
//! begins.
//!
//! It stands on `arj_journal`, which has the lines, on `arj_disk` for what a disk says, and on `arj_msg` for which bytes
//! are a message. There is nothing to run here:
//! `specs/` has the definitions that the contracts of the crates above name. `proofs/` tries them on worked runs and on
//! small wrong journals, and has lemmas on a journal with one line more.
#![tactic(auto)]
