//! The files of the segment store: the bytes of a Segment or Pending file, and what is read of them.
//!
//! It stands on `arj_store`, `arj_disk` and `arj_base`. What it gives upward: `file_of` writes the one spelling of states;
//! `states_of` reads all that a file has, and `packed_in` what it has of one object, by `states_in`, which reads any bytes
//! (`specs/Format.antt`); and the newest of numbered things (`specs/Newest.antt`).
#![tactic(auto)]

mod rows;
mod written;

pub use rows::{packed_in, states_of};
pub use written::file_of;
