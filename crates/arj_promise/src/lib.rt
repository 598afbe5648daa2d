//! The promise of the protocol, as a statement: what is promised of every run in form. Definitions alone; nothing runs.
//!
//! In reading order: `specs/Starts.antt` says which starts are formed, `Runs` what a run is, and when it is in form; `Serial`, `Held`, `Disks`, `Excluded`, `Outcome`,
//! `Waiting` and `Resting` have the clauses; `Promise` puts them together. It stands on `arj_model` (what a journal shows) and
//! `arj_protocol` (what a node does). The law of it is `runs_keep_the_promise` of `arj_law_promise`.
#![tactic(auto)]
