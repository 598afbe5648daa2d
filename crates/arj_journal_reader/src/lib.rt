//! Reading a journal back.
//!
//! It stands on `arj_journal`, which writes, and on `arj_text`, which reads the fields of a line. What it gives upward:
//! `read_line` accepts exactly the texts of the lines in form (`specs/LineForm.antt` of `arj_journal`), and no two
//! journals of such lines have one text (`one_text_per_journal`). `read_uid` reads a Uid alone.
#![tactic(auto)]

mod action_lines;
mod answers;
mod call;
mod causes;
mod fault;
mod law;
mod node_lines;
mod piece;
mod pieces;
mod read;
mod spelled;
mod spellings;
mod uid;

pub use fault::LineFault;
pub use law::one_text_per_journal;
pub use read::read_line;
pub use uid::uid as read_uid;
