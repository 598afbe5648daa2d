//! The top call: everything that the program does, over a source, a sink and a rack of disks that are handed in.
//!
//! It stands on `arj_command`, which runs a command over any cores of a node, and names the cores of the program: `Node`. The contract
//! of `arjuna` is what the whole project promises, with nothing assumed of cores: `specs/Outcome.antt` of `arj_command` says what each
//! status means, and `specs/Facts.antt` there what the journal and the disks show.
#![tactic(auto)]

mod rack;
mod top;

pub use arj_checking::Finding;
pub use arj_loop::BadLine;
pub use arj_world::World;
pub use rack::empty_rack;
pub use top::{Node, arjuna};
