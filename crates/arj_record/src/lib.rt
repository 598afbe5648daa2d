//! Abstract records, and the list of them that each open action keeps: what its end has to give back, hand on,
//! release or make permanent, generic in the type of the objects' values.
//!
//! It stands on `arj_base`. What it gives upward: each call of a `RecordList` is a function on lists of records
//! (`added`, `merged`, `forgotten` in `specs/Records.antt`), and its end makes exactly the calls of the scene that
//! `undo_calls` and `keep_calls` name, in that order. So undo restores each object once, to the oldest image that the
//! list ever had of it, and then releases the locks. What a list has reserved, it takes without asking for memory. A
//! list can be neither copied nor dropped, so it is spent exactly once.
#![tactic(auto)]

mod abstract_record;
mod laws;
mod list;
mod record;
mod scene;

pub use abstract_record::AbstractRecord;
pub use laws::{
    ends_go_by_objects, forgets_one_object, merges_go_by_objects, undo_restores_the_oldest_image,
};
pub use list::RecordList;
pub use record::Record;
pub use scene::Scene;
