//! The audit of an image that comes from a source: its lines are read, and what is found of it is written to a sink.
//!
//! It stands on `arj_lines`, which hands the lines over, on the reader of images, and on `arj_audit`, which judges the image. The contract
//! that it gives upward is that of `audited`: for every input, what each status means and what was written, by which images are in the
//! grammar, which journals can be read as a run, and what is so of the image (`specs/Audits.antt`). It speaks of no run.
#![tactic(auto)]

mod auditing;
mod finding;
mod intake;
mod text;

pub use arj_image::{FILE_LINES, IMAGE_LINES};
pub use auditing::audited;
