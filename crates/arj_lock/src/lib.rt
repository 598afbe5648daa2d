//! The lock table of a node: which action holds which object in which mode, under nested atomic actions (after Moss).
//!
//! It stands on `arj_base`, whose `specs/Rows.antt` says what a lock table is: a list of rows in order of granting, and
//! what each step makes of it. What it gives upward: a `LockTable` is that list, and each call is its step; and laws of
//! the steps. `rows_stay_apart`, for which there are locks: two rows of one object that conflict have related holders,
//! over whatever relation "it is or stands above it" the caller gives; `rows_exclude`, the same by paths that agree;
//! `rows_are_one_each`: no action has two rows of one object; and in `effects` what each step leaves of the modes, by object
//! and holder, of who has a row, and of each row.
//!
//! Locks stand under their grants, and an index (`index.rt`) finds them by group: an action's own on an object, those that it
//! passes or drops, those that conflict with a mode. So a call costs the logarithm of all locks for each that it changes or
//! lists, and a conflict is found behind at most as many as the path has actions. Where memory for the index is wanting, a
//! look over all locks does.
#![tactic(auto)]

mod effects;
mod fault;
mod grants;
mod group;
mod index;
mod laws;
mod lock;
mod pass;
mod table;
mod tops;

pub use effects::{close_leaves, drop_leaves, grant_leaves, lower_leaves, pass_leaves};
pub use fault::LockFault;
pub use laws::{rows_are_one_each, rows_exclude, rows_stay_apart};
pub use table::LockTable;
