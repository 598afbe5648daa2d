//! Whether the states that nodes hold are states that their objects had.
//!
//! It stands on `arj_last`, which has the writes of each object in serial order, and on `arj_clean`, which has what is kept of a journal.
//! What it gives upward: `do_hold_past` is true exactly where each object state that a node holds is of an object of the header, and is
//! its last state behind some number of the committed tops in serial order (`HoldPast`, `specs/Past.antt`), and `is_of_header` exactly
//! where all that a node holds in a role is of the header's objects; for a journal that can be read as a run and the files of an image.
#![tactic(auto)]

mod front;
mod header;
mod past;

pub use header::is_of_header;
pub use past::do_hold_past;
