//! Calls of a journal, run one after another in the order of keys, and the first of them whose answer differs.
//!
//! It stands on `arj_model`, which says what a call changes, and on `arj_class`, which does it. What it gives upward:
//! `in_order` sorts places by keys, and `replay` answers exactly what `specs/Verdict.antt` computes of the calls at places; `values_after`
//! leaves the values after them.
#![tactic(auto)]

mod run;
mod sorting;

pub use run::{Wrong, replay, values_after};
pub use sorting::{Key, in_order};
