//! What a journal's model and the protocol share: with what a run begins, its limits, and the kinds of actions.
//!
//! Definitions alone; nothing runs. `specs/Start.antt` has the start of a run (marks, older states, incarnations, labels that were
//! given), `Limits` the limits of a run, and `Kinds` the tests of an action's kind. It stands on the types of lines (`arj_journal`),
//! labels (`arj_text`), and states and Uids (`arj_base`).
#![tactic(auto)]
