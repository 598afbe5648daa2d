//! Tests of scripts and journals as texts: words, lines and whole runs, read and printed again.
//!
//! It stands on `arj_script`, which reads scripts, on `arj_journal_reader`, which reads journals, and on `arj_text`. It
//! has tests alone: a crate with tests is proved twice, and here that is little.
#![tactic(auto)]

#[cfg(test)]
mod journals;
#[cfg(test)]
mod runs;
#[cfg(test)]
mod scripts;
#[cfg(test)]
mod words;
