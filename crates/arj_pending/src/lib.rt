//! Which stores may hold prepared states of which objects, and for whom, behind each part of a journal.
//!
//! It stands on `arj_last`, which keeps what actions change line by line, and on `arj_seen`, whose scripts say which event was a crash.
//! What it gives upward: `put_pendings` appends exactly `told_pendings` of a script and its journal (`specs/Told.antt`): behind each line
//! that may change it, for each object and store, whose prepared state is there, or may be, since the node stopped as it prepared.
#![tactic(auto)]

mod commits;
mod crashes;
mod holds;
mod kept;
mod pends;
mod standing;
mod take;
mod told;

pub use told::put_pendings;
