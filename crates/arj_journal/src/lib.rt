//! Scripts and journals as types, and their texts: what a script can say (`Header`, `Event`) and what a journal can
//! say (`Line`).
//!
//! It stands on `arj_text`, which has the words of a line, on `arj_base` and on `arj_class`. What it gives upward:
//! `put_line` appends exactly `line_text` of a line (`specs/LineText.antt`), and `put_event` and `put_object` script
//! lines (`specs/ScriptText.antt`). `specs/LineForm.antt` says which lines are in form, and `specs/ScriptForm.antt` which
//! headers and events. A `Stepper` runs events one by one. What reads journal lines stands above, in
//! `arj_journal_reader`.
#![tactic(auto)]

mod body;
mod event;
mod header;
mod limits;
pub mod line_kind;
mod script_text;
mod step;
pub mod words;
mod write;

pub use arj_text::{Label, answer_text, put_answer};
pub use body::{Body, Cause, Difference, FrameKind, Kind, Line, Lines, Part, Role, Which};
pub use event::{Event, Events, FrameNo, StopKind};
pub use header::{Header, ObjectLine, ObjectLines};
pub use limits::{NODES, OBJECTS, REFUSALS, SERVERS, STOP_CALLS, STORES};
pub use script_text::{put_event, put_nodes, put_object};
pub use step::{StepFault, Stepper};
pub use write::{line_text, put_line};
