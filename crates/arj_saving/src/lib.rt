//! The command `image`: a script is run, its nodes are stopped, and the text of what is left is written: header, journal and files.
//!
//! It stands on `arj_loop`, which runs the script into a sink that tells nothing, on `arj_nodes`, which is the machine that it runs on,
//! and on `arj_image`, which has images. The contract that it gives upward is that of `imaged`: for every input, what each status means, what
//! was run, how it was stopped, and what was written of it (`specs/Saved.antt`, `specs/Stops.antt`). `files_of` reads the files of
//! each node's disk, all of them and no other, by nodes, and of each node in the order of names (`specs/Gathered.antt`).
#![tactic(auto)]

mod gathering;
mod imaging;
mod saving;
mod stopping;

pub use gathering::files_of;
pub use imaging::imaged;
