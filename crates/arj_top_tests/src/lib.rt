//! Tests of the top call: whole runs over sources, sinks and disks in memory.
//!
//! It stands on `arj_top` and knows it by its contract. It has tests alone: so the top call is proved once, and not once more with
//! its tests.
#![tactic(auto)]

#[cfg(test)]
mod faults;
#[cfg(test)]
mod runs;
