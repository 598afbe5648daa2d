//! Journals that any system may have written: which of them can be read as a run, and what is read of them.
//!
//! It stands on `arj_model`, which has the definitions of actions and calls, and on `arj_journal` and `arj_class`. What it
//! gives upward: `read` answers the first line that breaks a rule (`specs/Readable.antt`), or the actions, commits and calls
//! of the journal (`specs/Reading.antt`), in time that grows as n log n with its lines.
#![tactic(auto)]

mod action;
mod fault;
mod limits;
mod lookup;
mod mark;
mod named;
mod reader;
mod reading;
mod rule;
mod rules;
mod take;

pub use action::{Action, TopAction};
pub use fault::CheckFault;
pub use limits::PATH_ACTIONS;
pub use lookup::kept;
pub use mark::Mark;
pub use reader::read;
pub use reading::Reading;
pub use rule::{Broken, Rule};
pub use rules::object_at;
pub use take::note;
