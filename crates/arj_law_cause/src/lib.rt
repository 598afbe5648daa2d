//! Why the journal says what it says, in its own words: what each event writes, what waits, and why each line stands.
//!
//! `follow/` has what events write, `waits/` what actions wait for, `rows/` answers with their causes, `operations/` of which operation
//! an answer is, `kinds/` lines of one kind with their causes, `bindings/` what naming and servers have of bindings, `confirm/` why
//! naming refuses commits, `votes/` what tops have written that stores are asked to prepare, `stores/` that they have prepared it where a
//! top commits, `spelled/` that what is sent can be spelled, `told/` all that a journal says of why it is so, put together, `local/` whose
//! lines an event writes, `form/` which lines are in form, `rounds/` what quiesces answer and rounds leave.
//!
//! What it gives upward: `every_line_has_its_cause`, `journals_follow_their_events`, `journals_tell_their_causes`,
//! `lines_are_of_their_node`; `tree_refusals_follow`, `object_refusals_follow`, `refusals_follow`, `dooms_have_causes`, `lines_follow`; `waiting_refusals_follow`,
//! `answers_end_what_waits`, `commits_end_what_waits`, `giveups_lose_calls`; `conflicts_are_met`, `tables_agree_inside_events`,
//! `answers_have_causes`, `conflicts_come_exactly`, `answers_are_of_their_operations`;
//! `frame_lines_have_causes`, `stops_have_causes`, `restarts_have_causes`, `limits_have_causes`, `openings_have_causes`,
//! `plain_refusals_have_causes`, `denials_have_causes`, `commits_done_have_causes`, `quiesces_have_causes`, `recoveries_have_causes`,
//! `ends_have_causes`, `shows_have_causes`, `locks_on_objects_are_free`, `locks_on_entries_are_free`, `bindings_have_causes`,
//! `copies_have_causes`, `locks_lowered_have_causes`, `lost_commits_have_causes`, `giveups_have_causes`, `refused_commits_have_causes`,
//! `preparations_have_causes`, `commits_are_called`, `exclusions_have_causes`; `messages_can_be_spelled`, `journals_are_in_form`;
//! `journals_tell_how_nodes_are`, `quiesces_answer_who_waits`, `rounds_end_quiet`, `asked_alone_is_answered`, `events_send_few_frames`,
//! `few_events_meet_no_limit`, `settles_answer_who_waits`.
#![tactic(auto)]

mod answers;
mod bound;
mod causes;
mod form;
mod messages;
mod met;
mod refused;
mod rounds;
mod tables;
mod telling;
mod waiting;
mod written;

pub use answers::{answers_are_of_their_operations, answers_have_causes, conflicts_come_exactly};
pub use bound::{bindings_have_causes, copies_have_causes, locks_lowered_have_causes};
pub use causes::{
    commits_are_called, commits_done_have_causes, denials_have_causes, ends_have_causes,
    exclusions_have_causes, frame_lines_have_causes, giveups_have_causes, limits_have_causes,
    locks_on_entries_are_free, locks_on_objects_are_free, lost_commits_have_causes,
    openings_have_causes, plain_refusals_have_causes, preparations_have_causes,
    quiesces_have_causes, recoveries_have_causes, refused_commits_have_causes,
    restarts_have_causes, shows_have_causes, stops_have_causes,
};
pub use form::journals_are_in_form;
pub use messages::messages_can_be_spelled;
pub use met::conflicts_are_met;
pub use refused::{
    dooms_have_causes, object_refusals_follow, refusals_follow, tree_refusals_follow,
};
pub use rounds::{
    asked_alone_is_answered, events_send_few_frames, few_events_meet_no_limit,
    journals_tell_how_nodes_are, quiesces_answer_who_waits, rounds_end_quiet,
    settles_answer_who_waits,
};
pub use tables::tables_agree_inside_events;
pub use telling::{
    every_line_has_its_cause, journals_follow_their_events, journals_tell_their_causes,
    lines_are_of_their_node,
};
pub use waiting::{
    answers_end_what_waits, commits_end_what_waits, giveups_lose_calls, waiting_refusals_follow,
};
pub use written::lines_follow;
