//! The program `view`'s own work: which view its words ask for, what an input is shown as, and what is said of an input that can't
//! be.
//!
//! It stands on `arj_seen`, which reads, and on the crates of the views. What it gives upward: `way_of` knows exactly the words of the
//! views; `read_whole` answers all bytes that a source had left; `view` shows an input only where it is a script, a line `journal`, and
//! a journal.
#![tactic(auto)]

mod input;
mod said;
mod showing;
mod way;

pub use input::read_whole;
pub use said::put_fault;
pub use showing::view;
pub use way::{Way, way_of};
