//! What follows from the definitions over a journal alone: laws of the serial order, of nested actions, of what the next
//! commit changes, of two journals of which the second goes on where the first one ended, and of one that is shown with other numbers.
//!
//! It stands on `arj_model`. What it gives upward: whoever shows that a run keeps the lock book has shown that its journal is serial;
//! `joined_journals_stand_one_behind_the_other`, `joined_journals_keep_the_book`, `joined_journals_end_as_the_second`,
//! `joined_samples_end_so`, `shown_journals_are_alike`.
#![tactic(auto)]

mod joined;
mod shown;

pub use joined::{
    joined_journals_end_as_the_second, joined_journals_keep_the_book,
    joined_journals_stand_one_behind_the_other, joined_samples_end_so,
};
pub use shown::shown_journals_are_alike;
