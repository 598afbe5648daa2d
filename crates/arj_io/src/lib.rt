//! Where input comes from and output goes: a source gives bytes and a sink takes them, each with a count of its
//! faults. Those in memory have planned faults or none; those over std's readers and writers are the real ends.
//!
//! It stands on `arj_base`. What it gives upward: bytes move in order with none lost or doubled, and Failed comes
//! only where the count of faults rose, with nothing moved by the call that failed.
#![tactic(auto)]

mod failed;
mod mem_sink;
mod mem_source;
mod plan;
mod sink;
mod source;
mod std_ends;

pub use failed::Failed;
pub use mem_sink::{MemSink, SureSink};
pub use mem_source::{MemSource, SureSource};
pub use sink::{Sink, write_all};
pub use source::Source;
pub use std_ends::{StdSink, StdSource};
