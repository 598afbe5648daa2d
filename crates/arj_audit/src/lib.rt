//! The audit of an image: whether its journal is serial, its disks are clean, nothing on them is open, and the run can go on from it.
//!
//! It stands on `arj_check` and `arj_book`, which judge the journal, on `arj_clean`, `arj_rest` and `arj_past`, which hold the disks
//! against it, and on `arj_saved`, which reads the files. What it gives upward: `audit` finds exactly what is so of an image whose journal
//! can be read as a run (`HasFindings`, `specs/Calm.antt`), and tells the first line that breaks a rule where it can't.
#![tactic(auto)]

mod calm;
mod findings;
mod judging;

pub use findings::Findings;
pub use judging::audit;
