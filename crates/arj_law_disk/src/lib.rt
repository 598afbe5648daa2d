//! The commit protocol seen from one object and its entry: nothing is lost and nothing is half.
//!
//! It stands on nothing but numbers and lists: two-phase commit with presumed abort, exclusion and inclusion of
//! stores, constituents of one serializing action, under stops at every disk call and messages that come again at any
//! time.
//!
//! What it gives upward: `disks_stay_whole`, `outcomes_are_one`, `versions_count_decisions`,
//! `confirmations_are_booked`, `guards_can_be_met`.
#![tactic(auto)]

mod disks;
mod naming;
mod samples;

pub use disks::{disks_stay_whole, outcomes_are_one, versions_count_decisions};
pub use naming::confirmations_are_booked;
pub use samples::guards_can_be_met;
