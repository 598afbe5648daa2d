//! The command `program`: client programs are read from a source, run by their seeded schedule on a machine, and told of.
//!
//! It stands on `arj_lines`, which hands the lines over, on `arj_prog`, which reads them, on `arj_progrun`, which has the schedule,
//! and on the machine of `arj_loop`. The contract that it gives upward is that of `run_programs`, over any machine: for every input,
//! what each status means, what was run, by which events and with which journal, and what was written of it
//! (`specs/Outcome.antt`).
#![tactic(auto)]

mod driven;
mod programs;
mod reading;
mod running;
mod taking;
mod text;

pub use programs::run_programs;
pub use reading::plans_are_fit;
