//! Entries of the naming service: for an object, the nodes that may run a server for it and the nodes that hold its
//! state.
//!
//! It stands on `arj_base` and `arj_class`. What it gives upward: an entry has one payload, `entry_payload`, which
//! `Entry::save` writes and `Entry::restore` alone accepts; `Entry::exclude` and `Entry::include` are those of a plain
//! list (`specs/Entry.antt`).
#![tactic(auto)]

mod entry;

pub use entry::Entry;
