//! The check of a finished journal, which any system may have written: a script, the line `journal` and the lines of the journal
//! are read from a source, and what is found is written to a sink.
//!
//! It stands on `arj_lines`, which hands the lines over, on the readers of scripts and of journal lines, and on `arj_check`, which
//! judges the journal. The contract that it gives upward is that of `checked`: for every input, what each status means and what
//! was written, by which journals can be read as a run and by the serial and the nested order (`specs/Checks.antt`). It speaks of
//! no run.
#![tactic(auto)]

mod checking;
mod finding;
mod limits;
mod parts;
mod text;

pub use checking::checked;
pub use finding::{Finding, Half};
pub use limits::{JOURNAL_LINE_BYTES, JOURNAL_LINES};
