//! Tests of the naming service over a disk that writes down its calls: what it answers row by row, which disk calls it makes,
//! and what a stop at each of them leaves.
//!
//! It stands on `arj_naming`, which it knows by its contracts, over the store of `arj_store` and the disk of
//! `arj_part_tests`. It has tests alone.
#![tactic(auto)]

#[cfg(test)]
mod arming;
#[cfg(test)]
mod calls;
#[cfg(test)]
mod messages;
#[cfg(test)]
mod rows;
#[cfg(test)]
mod site;
#[cfg(test)]
mod steps;
#[cfg(test)]
mod stops;
