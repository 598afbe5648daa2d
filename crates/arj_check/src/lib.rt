//! A checker of finished journals, which any system may have written: whether a journal can be read as a run, whether it is
//! serial, and whether its nested calls are in order.
//!
//! It stands on `arj_reading`, which reads a journal, and on `arj_replay`, which sorts its calls and runs them. What it gives
//! upward: `check` tells the first line that breaks a rule, or the first call whose answer differs, in serial order and where
//! each nested action is run whole at its commit, exactly as the definitions compute them, in time that grows as n log n with
//! the lines.
#![tactic(auto)]

mod called;
mod checker;
mod commits;
mod keys;
mod laws;
mod places;
mod tops;
mod verdict;

pub use checker::{check, serial_places};
pub use commits::commit_keys;
pub use keys::{Parts, call_keys};
pub use laws::{
    calls_are_found_by_marks, calls_survive_by_actions, no_difference_is_right, places_are_sorted,
    readable_calls_can_be_run, readable_tops_have_own_keys, tops_are_found_by_marks,
};
pub use places::{is_committed, survivals};
pub use tops::{Tops, make_tops};
pub use verdict::Verdict;
