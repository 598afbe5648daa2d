//! Tests of one node alone: what it does in whole runs of several nodes, by frames made by hand, call by call of its disk; and
//! what stops of its disk leave.
//!
//! It stands on `arj_core`, by which it knows a node, on `arj_node` and `arj_parts`, which are the node, and on the disk of
//! `arj_part_tests`, which writes down its calls. It has tests alone.
#![tactic(auto)]

#[cfg(test)]
mod alone;
#[cfg(test)]
mod bytes;
#[cfg(test)]
mod plays;
#[cfg(test)]
mod rows;
#[cfg(test)]
mod stops;
#[cfg(test)]
mod tests;
