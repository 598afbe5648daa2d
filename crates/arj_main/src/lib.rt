//! The main's own work: the words of the command line, a source that remembers what it gave, and what is said on standard error.
//!
//! It stands on `arj_script` and `arj_prog`, whose readers tell where a line stands, `arj_io`, `arj_loop`, `arj_journal` and
//! `arj_checking`. It gives no contract upward: what it says tells of a status, and of what was found, that are known. Which slip of a
//! bad line of a script is named, and when, says `specs/Slips.antt`.
#![tactic(auto)]

mod checked;
mod command;
mod errors;
mod forms;
mod help;
mod images;
mod pieces;
mod place;
mod programs;
mod refused;
mod remembering;
mod shown;
mod slip;
mod slip_tests;

pub use command::words;
pub use errors::{Ran, explain};
pub use place::{Place, place_of_line};
pub use remembering::Remembering;
pub use slip::{Slip, slip_of};
