//! Words for what a journal says: labels for Uids, numbers for packed states, sentences for lines, refusals and causes; and the page
//! on which they are written.
//!
//! It stands on `arj_journal` and what is below it. What it gives upward: a page only grows, and each of its own calls appends exactly
//! what `specs/Page.antt` says, or the page is no longer whole; every sentence leaves what was written before (`Stays`).
//! `escaped_is_text_alone`: no markup stands in what is escaped.
#![tactic(auto)]

mod act_sentences;
mod cause_words;
mod frame_sentences;
mod laws;
mod names;
mod node_sentences;
mod page;
mod refusals;
mod saying;
mod sentences;
mod state_words;

pub use laws::escaped_is_text_alone;
pub use names::{Frame, Names};
pub use page::Page;
pub use refusals::refusal_words;
pub use saying::{Word, say};
pub use sentences::say_body;
