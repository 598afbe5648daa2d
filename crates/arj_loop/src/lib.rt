//! The loop: a script is read, run line by line on a machine, and its journal written, over a source, a sink and a rack of
//! disks that are handed in.
//!
//! It stands on `arj_script`, which reads, and `arj_journal`, which writes; what runs the events is a trait, `Machine`. The
//! contract that it gives upward is that of `replay`: which lines came and were run, what of the journal was written, and why
//! the run ended (`specs/Replayed.antt`). It reads through `AskedSource` alone, which is asked only when the sink took the text of
//! the whole journal.
#![tactic(auto)]

mod asked;
mod call;
mod ending;
mod gather;
mod limits;
mod machine;
mod reading;
mod run;
mod session;

pub use asked::AskedSource;
pub use call::replay;
pub use ending::BadLine;
pub use machine::{EventFault, Machine, StartFault};
