//! What the files of an image say: committed states, what is prepared, and incarnations.
//!
//! It stands on `arj_image`, which has the files, and on `arj_segment_file`, which says how states stand in them. What it gives upward:
//! `segments_of` and `pendings_of` read the Segment and Pending files, those out of their grammar as if they had no state; `held` and
//! `is_named` find a state in them, as `disks_of` has it (`specs/Saved.antt`); `is_quiet`, `are_in_place` and `inc_of` test the files.
#![tactic(auto)]

mod files;
mod found;
mod kept;
mod rows;

pub use files::{MOST_COUNT, are_in_place, inc_of, is_quiet};
pub use found::{held, is_named};
pub use kept::{Kept, pendings_of, segments_of};
pub use rows::states_of;
