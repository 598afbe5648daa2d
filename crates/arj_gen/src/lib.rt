//! The generated bank: a script of 200 transfers between 20 accounts on five nodes, with frames that are lost and a node
//! that crashes twice.
//!
//! It stands on `arj_journal`, whose events it makes. The contract that it gives upward: the script of a number is the one
//! that `specs/Bank.antt` computes, line for line.
#![tactic(auto)]

mod bank;
mod draws;
mod transfer;

pub use bank::{ACCOUNTS, EVENTS, NODES, Script, generate};

#[cfg(test)]
mod tests;
