//! What people look at: a script and the journal of its run, read from one input.
//!
//! It stands on `arj_script`, whose reader takes the script's lines, and on `arj_journal_reader`, which reads a journal's. What it
//! gives upward: `see` answers what was seen, and the input is the text of just that (`specs/Input.antt`).
#![tactic(auto)]

mod blocks;
mod cutting;
mod fault;
mod journal_part;
mod script_part;
mod seen;

pub use fault::SeenFault;
pub use seen::{Asked, ScriptLine, Seen, see};
