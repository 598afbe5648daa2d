//! A run that goes on from an image of stopped nodes, in parts: the labels that its journal gave, its files put on disks, the events
//! behind it, and what of its own numbers is shown. The command that puts them together isn't there.
#![tactic(auto)]

mod events;
mod files;
mod given;
mod showing;

pub use events::{event_line, events_reader};
pub use files::put_files;
pub use given::given_labels;
pub use showing::{own_event, shown};
