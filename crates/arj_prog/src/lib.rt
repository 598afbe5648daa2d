//! Client programs: calls, prints, conditions, and blocks that are tried again, read line by line.
//!
//! It stands on `arj_script`, whose header a program's input begins with, and on `arj_text`. What it gives upward:
//! `ProgReader::line` takes a line exactly where it has a form of the grammar at its place (`specs/Grammar.antt`), and at
//! `run` gives the plan that was read. Statements are seen as a `Listing`; `specs/Meaning.antt` says what a listing does, alone.
#![tactic(auto)]

mod call;
mod draft;
mod frame;
mod heading;
mod laws;
mod limits;
mod line;
mod nest;
mod opening;
mod place;
mod plan;
mod reader;
mod said;
mod statements;
mod used;
mod waiting;

pub use laws::lines_are_kept;
pub use limits::{BLOCKS, PROGRAM_OBJECTS, PROGRAMS, RETRIES, STATEMENTS, TURNS};
pub use plan::{Plan, Program, Programs};
pub use reader::{ProgItem, ProgReader};
pub use statements::{Statement, Statements};
