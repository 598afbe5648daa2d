//! The protocol is a run of the lock machine, object by object.
//!
//! `view/` has it part by part, `facts/` what it counts on of the protocol alone, `records/` that late Records find
//! nothing, `journal/` the journal against the machine, `running/` whole runs, `moments/` at which places answers are made,
//! `asking/` that what waits was asked last.
//!
//! What it gives upward: `late_records_find_nothing`, `answers_are_made`, `calls_wait_for_what_was_asked`.
#![tactic(auto)]

mod asked;
mod late;
mod made;

pub use asked::calls_wait_for_what_was_asked;
pub use late::late_records_find_nothing;
pub use made::answers_are_made;
