//! A run as a chart of characters: a column for each node, arrows for frames, gaps where a node is down.
//!
//! It stands on `arj_seen` and `arj_words`. What it gives upward: `write_ascii` leaves what was written before.
#![tactic(auto)]

mod arrow;
mod chart;
mod marks;
mod row;
mod up;

pub use arrow::Arrow;
pub use chart::write_ascii;
pub use marks::row_of;
pub use row::Row;
pub use up::Ups;
