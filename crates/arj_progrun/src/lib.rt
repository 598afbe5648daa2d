//! Client programs under a seeded schedule: which events they give by what the nodes answer, and what is told of them.
//!
//! It stands on `arj_prog`, which has the programs. What it gives upward: `drive_on`, which gives nodes (`Nodes`) exactly the events of `specs/Schedule.antt` over programs as `specs/Client.antt` has them
//! (`specs/Driving.antt`); `Schedule`, whose calls are its turns; and two laws. `programs_mean_their_calls`: whatever the nodes
//! answer, the calls of a program that committed are those that its statements make alone (`specs/Alone.antt`).
//! `plans_are_in_form`: a plan whose lines are in form is in form (`specs/InForm.antt`).
#![tactic(auto)]

mod client;
mod copy;
mod draws;
mod labels;
mod laws;
mod level;
mod nodes;
mod phase;
mod report;
mod run;
mod schedule;

pub use copy::copy_event;
pub use laws::{plans_are_in_form, programs_mean_their_calls};
pub use nodes::Nodes;
pub use report::{Report, ReportLine};
pub use run::drive_on;
pub use schedule::{Given, Schedule};
