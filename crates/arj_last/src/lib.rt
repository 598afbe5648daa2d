//! The last states of objects behind each part of a journal: value, version, and who wrote it.
//!
//! It stands on `arj_changes`, which keeps commits line by line, and on `arj_replay`, which sorts and runs calls. What it gives upward:
//! `Writes` goes line by line, and `last_state_of` answers value, version and writer of `last_state` (`arj_model/specs/Last.antt`), at the
//! cost of the writes on that object; `put_last_states` appends exactly `told_states` of a header and a journal (`specs/Told.antt`).
#![tactic(auto)]

mod behind;
mod counting;
mod groups;
mod kept;
mod keys;
mod picked;
mod readable;
mod state;
mod take;
mod told;
mod whole;

pub use counting::{count, last_writer, places_of};
pub use groups::items_at;
pub use kept::{Write, Writes};
pub use picked::{Wrote, writes_on};
pub use state::{LastState, last_state_of};
pub use whole::put_last_states;
