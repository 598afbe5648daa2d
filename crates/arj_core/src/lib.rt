//! What a node is to the world that runs it: what it is asked, what it puts out, and what a step of it is.
//!
//! It stands on `arj_disk` and the definitions of `arj_protocol`. What it gives upward is the trait `Core`: a core with the
//! files of its disk is a node of the protocol, and each step of it is the protocol's step of that node or, where its
//! disk stopped, a cut of that step (`specs/Steps.antt`).
#![tactic(auto)]

mod input;
mod node;
mod output;

pub use input::Input;
pub use node::{Core, CoreFault};
pub use output::{Output, Outputs};
