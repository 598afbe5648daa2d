//! Images: the nodes and objects of a run that was stopped, its journal, and the files of its disks, as text.
//!
//! It stands on `arj_script` and `arj_journal_reader`, which read a header's lines and a journal's, and on `arj_disk`, which names
//! files. What it gives upward: `ImageReader::line` takes a line exactly where it has a form of the grammar at its place
//! (`specs/Grammar.antt`), `ImageReader::finish` gives the image exactly where its text ended, and `image_text` writes just the lines
//! that are read back (`lines_are_kept`, `one_text_per_image`).
#![tactic(auto)]

mod file;
mod image;
mod laws;
mod limits;
mod place;
mod reader;
mod slot;
mod text;

pub use image::{Files, Image, NodeFile};
pub use laws::{lines_are_kept, one_text_per_image};
pub use limits::{FILE_LINE_BYTES, FILE_LINES, IMAGE_LINE_BYTES, IMAGE_LINES};
pub use reader::ImageReader;
pub use text::{image_text, parts_text};
