//! Whether a finished journal keeps the lock book: its order, its values, and the nesting of its actions.
//!
//! It stands on `arj_check`, which sorts the calls of a journal, and on `arj_replay`, which runs them. What it gives upward: `keeps_order`
//! is true exactly where `KeepsOrder` holds of a journal that can be read as a run (`specs/Order.antt`), at the cost of its lines and of
//! the calls that open nested actions have made.
#![tactic(auto)]

mod calls;
mod ends;
mod keeps;
mod nested;
mod order;

pub use keeps::keeps_order;
