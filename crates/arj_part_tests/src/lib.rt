//! Tests of the parts that nodes are made of: messages, and stores, records and beginnings over disks that write down
//! their calls.
//!
//! It stands on `arj_msg`, `arj_store`, `arj_segment`, `arj_intent`, `arj_recover` and `arj_disk`, which it knows by their
//! contracts. It has tests, and the recording disk and the lines of its calls, which the tests of crates above use too.
#![tactic(auto)]

#[cfg(test)]
mod beginnings;
mod calls;
#[cfg(test)]
mod messages;
mod recorder;
#[cfg(test)]
mod records;
#[cfg(test)]
mod segments;
#[cfg(test)]
mod stores;
#[cfg(test)]
mod tables;
#[cfg(test)]
mod uses;

pub use calls::put_calls;
pub use recorder::{Did, Recorder};
