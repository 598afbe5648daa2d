//! The words of a line: labels, numbers, bytes as digits, lists, operations, answers and values, with their texts, and
//! readers of those that scripts have.
//!
//! It stands on `arj_base` and `arj_class`. What it gives upward: each writer of `words` appends exactly the text that
//! `specs/Words.antt` says, and each reader of the `field` modules gives the one value in form that has the text, and
//! none exactly where no value in form has it (`IsRead` of `specs/Fields.antt`, which also says what is in form).
#![tactic(auto)]

pub mod field;
pub mod field_hex;
pub mod field_list;
pub mod field_value;
mod label;
mod laws;
pub mod words;

pub use label::{LABEL_BYTES, Label};
pub use laws::texts_say_what_is_in_form;
pub use words::{answer_text, put_answer};
