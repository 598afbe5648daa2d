//! What actions change, line by line: the stores that are listed for an object, and its naming entry.
//!
//! It stands on `arj_standing`, which knows the actions that have begun, and on `arj_model`. What it gives upward: `Changes` goes line by
//! line, and `entry_of` answers `listed` of the lines so far, and version and writer of `entry_state` (`arj_model/specs/Last.antt`).
#![tactic(auto)]

mod entry;
mod kept;
mod moves;
mod numbers;
mod order;
mod path;
mod read;

pub use entry::{EntryState, counted, entry_of, first_stores, is_moved};
pub use kept::{Called, Changes, Join, Leave};
pub use moves::{are_committed, is_among, joins_of};
pub use numbers::{either, note_number};
pub use order::{done_in, place_of, root_of, unit_of};
pub use path::{chain_ids, root_number, top_link};
pub use read::called_in;
