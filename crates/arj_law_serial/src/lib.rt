//! From both machines of each object to the journal: serial, the lock book, held, clean, excluded in time.
//!
//! `whole/` puts together what is known of the protocol alone, `past/` that whoever was told has ended, `order/` the
//! journal's side of the lock machine, `joint/` both machines in one run, `tables/` the lock tables that a journal
//! shows, `holding/` held at each line.
//!
//! What it gives upward: `runs_hold_locks_at_each_line`, `runs_commit_what_was_called`, `runs_keep_the_lock_book`,
//! `tables_show_locks`, `commits_say_what_they_exclude`, `runs_are_clean`, `runs_have_both_machines`,
//! `exclusion_in_time_tells_disks_apart`, `joined_runs_exclude_in_time`, `one_outcome_tells_journals_apart`,
//! `runs_exclude_in_time`, `runs_call_their_objects`.
#![tactic(auto)]

mod along;
mod booked;
mod holding_tables;
mod joint_runs;
mod outcomes;
mod whole_runs;

pub use along::runs_hold_locks_at_each_line;
pub use booked::{runs_commit_what_was_called, runs_keep_the_lock_book};
pub use holding_tables::tables_show_locks;
pub use joint_runs::{commits_say_what_they_exclude, runs_are_clean, runs_have_both_machines};
pub use outcomes::{
    exclusion_in_time_tells_disks_apart, joined_runs_exclude_in_time,
    one_outcome_tells_journals_apart, runs_exclude_in_time,
};
pub use whole_runs::runs_call_their_objects;
