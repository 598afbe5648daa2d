//! The commit of a top: its servers vote, its stores prepare, naming confirms, and then it is decided.
//!
//! The steps are types: `Voting`, `Preparing`, `Confirming`, `Telling`, each owning the plan of the commit. A step is left
//! only for the one that may follow it, and an answer takes its node off those that are awaited, so that none counts
//! twice.
//!
//! It stands on the messages (`arj_msg`), the record of a commit (`arj_intent`) and the definitions of `arj_protocol`. What it
//! gives upward: each call is the protocol's function on the commit machine; and `commits_keep_the_order`: a commit is
//! decided only when each server has voted for it, each store has prepared or is marked for exclusion, and naming has
//! confirmed.
#![tactic(auto)]

mod answer;
mod confirming;
mod laws;
mod limits;
mod marks;
mod next;
mod plan;
mod preparing;
mod requests;
mod sets;
mod starting;
mod states;
mod step;
mod telling;
mod tolds;
mod voting;
mod whom;

pub use answer::differs;
pub use confirming::Confirming;
pub use laws::commits_keep_the_order;
pub use limits::{LAST_START, NAMING};
pub use plan::{Plan, Used, UsedList};
pub use preparing::Preparing;
pub use requests::Requests;
pub use starting::start;
pub use step::Step;
pub use telling::Telling;
pub use voting::Voting;
