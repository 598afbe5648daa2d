//! Tests of the lowest crates: words and their packed states, classes, disks, streams, locks, entries, the net and records.
//!
//! It stands on them and knows them by their contracts. It has tests alone: so each of these crates is proved once, and not
//! once more with its tests.
#![tactic(auto)]

#[cfg(test)]
mod base;
#[cfg(test)]
mod class;
#[cfg(test)]
mod disk;
#[cfg(test)]
mod entry;
#[cfg(test)]
mod io;
#[cfg(test)]
mod lock;
#[cfg(test)]
mod net;
#[cfg(test)]
mod record;
#[cfg(test)]
mod state;
