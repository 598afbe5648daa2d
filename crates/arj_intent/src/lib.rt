//! The intentions records of commits: what a node that has decided a top still owes to the commit's participants.
//!
//! It stands on `arj_disk` and `arj_base`, and on the protocol's definitions. What it gives upward: after any stop the record
//! of a commit is there or not, and nothing between; `list` gives exactly the records that are there; and each call is
//! its work of the protocol, done or cut where it was stopped (`specs/Records.antt`).
#![tactic(auto)]

mod intent;
mod packed;
mod records;

pub use intent::{Intent, Intents};
pub use records::{list, put, remove};
