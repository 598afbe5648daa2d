//! The names that everything else is written in: Uids of actions and objects, paths of actions, bindings, lock modes
//! with their matrix, small lists, and packed object states.
//!
//! It stands on std, `byteorder` and `thiserror` alone. What it gives upward: a packed state has one spelling, `state_bytes`,
//! which `pack` writes and `unpack` alone accepts; `conflicts` is the lock matrix; and a lock table is a list of rows
//! in order of granting (`specs/Rows.antt`).
#![tactic(auto)]

mod binding;
mod laws;
mod limits;
mod mode;
mod path;
mod seq;
mod state;
mod uid;

pub use binding::Binding;
pub use laws::{classes_are_told_apart, orders_are_by_fields, uids_are_told_apart};
pub use limits::{LAST_VERSION, MOST_ACTIONS, MOST_BYTES, MOST_OBJECTS, MOST_UIDS};
pub use mode::{End, Mode, conflicts, stronger};
pub use path::Path;
pub use seq::{Bytes, Ends, NodeList, Numbers, Pairs, Seq, States, Uids};
pub use state::{
    Class, Format, ObjectState, StateFault, class_code, class_of_code, is_object_class,
    next_version, pack, unpack,
};
pub use uid::{Uid, entry_uid, object_uid};
