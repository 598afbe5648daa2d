//! The lock machine of one object: naming, servers and coordinators with nested actions and serializing units, any
//! part of which may stop.
//!
//! It stands on nothing. `machine/` has the machine and, in layers, order, values and votes; `logs/` what a copy's
//! log has of a top at its commit.
//!
//! What it gives upward: `these_runs_happen`.
#![tactic(auto)]

mod runs;

pub use runs::these_runs_happen;
