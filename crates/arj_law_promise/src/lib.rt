//! The promise of every run in form: what stands after every event, and what a quiesce and the stated round leave.
//!
//! `waiting/` has that requests for which somebody waits are answered, `settling/` that nothing prepared and no
//! record is left for ever and that each top has one outcome, `statement/` the promise as one, and a start that no
//! format leaves, `readable/` that journals of runs can be read and checked as those of any system, `meant/` which messages
//! are void and that no other fails to be meant, `rooms/` how far numbers rise that end.
//!
//! What it gives upward: `runs_show_one_outcome`, `runs_keep_the_promise`, `disks_of_idle_nodes_hold_the_last`,
//! `requests_that_wait_are_answered`, `runs_go_on_where_others_ended`, `runs_go_on_behind_journals`,
//! `journals_of_runs_are_readable`, `messages_are_void_exactly`, `what_is_sent_can_be_meant`, `numbers_have_room`,
//! `lines_of_actions_are_in_form`.
#![tactic(auto)]

mod checks;
mod meanings;
mod numbers;
mod outcomes;
mod promise;
mod settles;
mod starts;
mod waits;

pub use checks::journals_of_runs_are_readable;
pub use meanings::{messages_are_void_exactly, what_is_sent_can_be_meant};
pub use numbers::{lines_of_actions_are_in_form, numbers_have_room};
pub use outcomes::runs_show_one_outcome;
pub use promise::runs_keep_the_promise;
pub use settles::disks_of_idle_nodes_hold_the_last;
pub use starts::{runs_go_on_behind_journals, runs_go_on_where_others_ended};
pub use waits::requests_that_wait_are_answered;
