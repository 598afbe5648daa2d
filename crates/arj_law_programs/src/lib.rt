//! What committed client programs did, in the journal's own words.
//!
//! It stands on `arj_progrun`, which has the schedule, and on `arj_law_cause`, by which each line of a journal is of what was asked. What it
//! gives upward: `committed_programs_survive` and `committed_programs_run_alone` (`specs/Laws.antt`).
#![tactic(auto)]

mod committed;

pub use committed::{committed_programs_run_alone, committed_programs_survive};
