//! What a store's calls do with files is the protocol's work on its pair of states, for nodes' stores and for
//! naming's entries alike.
//!
//! It has no law of its own: contracts of naming, servers of stores and restarts stand on its definitions
//! (`specs/store/Files.antt`) and lemmas.
#![tactic(auto)]
