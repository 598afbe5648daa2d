//! What holds of all nodes and messages in every run of the protocol.
//!
//! `kept/` has good nodes, `coordinators/` room for what they send, `calls/` that servers' work and coordinators'
//! knowledge are one, `addresses/` that only nodes are sent to, `bindings/` how many bindings a run makes, `resting/`
//! what a quiesce and a round leave, `journal/` which line may stand behind which, `follow/` what each event writes,
//! `forms/` that lines are in form.
//!
//! What it gives upward: `runs_make_few_bindings`, `frames_go_within`, `paths_are_those_of_journals`,
//! `labels_are_known`, `trees_have_room`, `quiesces_leave_nothing_to_do`, `whoever_is_up_stays_up`,
//! `whoever_waits_is_answered`, `changes_are_called`, `votes_are_used`, `frames_have_causes`,
//! `plain_refusals_follow`, `short_events_follow`, `actions_are_numbered`, `labels_are_in_form`,
//! `lines_name_nodes`, `world_lines_are_in_form`.
#![tactic(auto)]

mod bindings_bindings;
mod follows;
mod frames;
mod lines;
mod names;
mod rooms;
mod rounds;
mod texts;
mod votes;

pub use bindings_bindings::runs_make_few_bindings;
pub use follows::{frames_have_causes, plain_refusals_follow, short_events_follow};
pub use frames::frames_go_within;
pub use lines::paths_are_those_of_journals;
pub use names::labels_are_known;
pub use rooms::trees_have_room;
pub use rounds::{quiesces_leave_nothing_to_do, whoever_is_up_stays_up, whoever_waits_is_answered};
pub use texts::{
    actions_are_numbered, labels_are_in_form, lines_name_nodes, world_lines_are_in_form,
};
pub use votes::{changes_are_called, votes_are_used};
