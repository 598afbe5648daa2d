//! Tests of whole commits: each answer, each refusal and each giveup once, answer by answer.
//!
//! It stands on `arj_commit`, which it knows by its contract, and has tests alone.
#![tactic(auto)]

#[cfg(test)]
mod commits;
#[cfg(test)]
mod plans;
