//! Tests of whole runs in which nodes stop: each disk gets the calls that it should, in their order, and no others.
//!
//! It stands on `arj_top` and knows it by its contract, and on the disk of `arj_part_tests`, which writes down its calls. It has
//! tests alone: the scripts and the calls are those of worked runs, in tables.
#![tactic(auto)]

#[cfg(test)]
mod calls;
#[cfg(test)]
mod rows;
