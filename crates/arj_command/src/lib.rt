//! The program's commands: what the words of its command line ask for, and the run of that over any cores of a node.
//!
//! It stands on `arj_loop`, which runs scripts that are read, on `arj_bank`, which runs generated ones, on `arj_programs`, which runs
//! client programs, on `arj_saving`, which writes images, on `arj_checking`, which checks journals, on the machine of `arj_nodes`, and on the laws of `arj_law_nodes/nodes` and `arj_law_images`.
//! The contract that it gives upward is that of `run_on`: `specs/Command.antt` says which words are a command, `specs/Outcome.antt`,
//! `specs/Programs.antt` and `specs/Images.antt` what each status means, and `specs/Facts.antt` what the journal and the disks show.
#![tactic(auto)]

mod run;
mod words;

pub use arj_law_images::cores_save_their_files;
pub use arj_law_nodes::cores_say_their_readings;
pub use run::run_on;
