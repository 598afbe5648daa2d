//! Tests of what nodes do with calls: the trees of actions, the roots and bindings of coordinators and what they ask, objects
//! under nested actions, and servers.
//!
//! It stands on `arj_tree`, `arj_root`, `arj_bind`, `arj_asking`, `arj_manager` and `arj_server`, which it knows by their
//! contracts. It has tests alone: so each of these crates is proved once, and not once more with its tests.
#![tactic(auto)]

#[cfg(test)]
mod asking;
#[cfg(test)]
mod bind;
#[cfg(test)]
mod manager;
#[cfg(test)]
mod root;
#[cfg(test)]
mod server;
#[cfg(test)]
mod tree;
