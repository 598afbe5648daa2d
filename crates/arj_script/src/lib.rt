//! Scripts, line by line.
//!
//! It stands on `arj_text`, which reads the fields of a line, and on `arj_journal`, which spells each form. What it
//! gives upward: `Reader::line` takes a line exactly where it has a form of the grammar at its place
//! (`specs/Grammar.antt`), tells what it says, and otherwise answers that it is bad and stays as it was; a header that it
//! tells of is in form. A reader is seen as the place where it stands. `nodes_line`, `format_line`, `object` and `holds` read the
//! lines of a header alone. `LineCutter` cuts a stream into lines, and
//! `cuts_leave_the_lines` says that they don't depend on its pieces. `specs/Input.antt` says what the lines of a source's bytes are, and
//! `proofs/Lines.antt` how they grow.
#![tactic(auto)]

mod cutter;
mod event;
mod event_part;
mod fault;
mod form;
mod front;
mod laws;
mod limits;
mod place;
mod reader;
mod stage;

pub use cutter::{Fed, Full, LineCutter};
pub use fault::ScriptFault;
pub use form::{nodes_line, object};
pub use laws::cuts_leave_the_lines;
pub use limits::{LINE_BYTES, SCRIPT_LINES};
pub use place::{format_line, holds};
pub use reader::{Item, Reader};
