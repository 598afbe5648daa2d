//! Whether disks are clean: where nothing is in doubt, they hold the last entries and states of a journal.
//!
//! It stands on `arj_changes` and `arj_last`, which have the last entry and state of each object, and on `arj_saved`, which reads files.
//! What it gives upward: `is_clean` is true exactly where each object of the header is clean (`AreClean`, `specs/Clean.antt`), for a
//! journal that can be read as a run and the files of an image.
#![tactic(auto)]

mod clean;
mod standing;
mod states;

pub use clean::{Saved, is_clean};
pub use standing::Standing;
pub use states::is_state;
