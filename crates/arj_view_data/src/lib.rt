//! What is told of a run beside its journal: who holds which locks, what is in doubt, and which stores are listed, at each line that
//! changes it.
//!
//! It stands on `arj_standing` and `arj_changes`, which follow the definitions of `arj_model`. What it gives upward: `put_run` appends
//! exactly `run_text` of a journal (`specs/Texts.antt`): its lines, and behind a line that may change them `table` of its node, what is
//! prepared and not done, and the entries whose stores were excluded or included, of the lines up to it.
#![tactic(auto)]

mod entries;
mod records;
mod run;
mod standing;

pub use run::put_run;
