//! The frames of all nodes: each message from one node to another is a frame with a number, in order of sending from
//! 1, and the net remembers which were delivered and which are lost.
//!
//! It stands on `arj_base`. What it gives upward: a net is the list of its frames in order of sending, with what became
//! of each (`specs/Net.antt`); `Net::lowest` is the least number of a frame that was neither delivered nor lost.
#![tactic(auto)]

mod net;

pub use net::{Frame, MOST_FRAMES, Net, NetFault};
