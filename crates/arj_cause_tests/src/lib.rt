//! Journals of whole runs, each line of which has its cause, and wrong ones in which a line has none.
//!
//! It stands on `arj_model`, whose definitions it tries, and on `arj_protocol` for what nodes hold: `proofs/` has journals as data,
//! each beside the lines of it that lack a cause, which is computed. `specs/` has `Follows` as a test that computes, by which wrong
//! journals are refused. `proofs/Forgotten.antt` has a tick that forgets one kind of message, and runs of it that are refused.
//! There is nothing to run here, and no crate stands on it.
#![tactic(auto)]
