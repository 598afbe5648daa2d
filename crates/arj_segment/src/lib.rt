//! An object store that keeps states in segment files: one file for each commit, with all its new states.
//!
//! It stands on `arj_store`, `arj_disk` and `arj_base`. An action's states are prepared in one file Pending, and its commit
//! gives that file the next number as a Segment; of eight segments the states are then merged into one. So a commit is one
//! rename, whatever number of objects it has. What it gives upward: `SegmentStore` is an `ObjectStore`; a stopped commit
//! leaves the pair before it or the pair after it; and after a commit its role has at most seven segments.
#![tactic(auto)]

mod gathering;
mod kept;
mod limits;
mod looking;
mod merging;
mod moving;
mod numbering;
mod recovery;
mod refusals;
mod segment;

pub use limits::{MOST_NUMBER, MOST_SEGMENTS};
pub use segment::SegmentStore;
