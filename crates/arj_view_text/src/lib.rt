//! A run as a text: the script's lines, each with what it led to.
//!
//! It stands on `arj_seen` and `arj_words`. What it gives upward: `write_text` leaves what was written before.
#![tactic(auto)]

mod blocks;
mod counts;
mod details;

pub use blocks::write_text;
