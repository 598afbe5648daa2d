//! What users store: the operations and answers of five classes (counter, register, account, queue and table), and
//! values of them, also of objects that are gone.
//!
//! It stands on `arj_base`. What it gives upward: `Value::mode` and `Value::apply` are the class table of
//! `specs/Table.antt`, one case for each row of it, and a read operation changes nothing.
#![tactic(auto)]

mod account;
mod counter;
mod gone;
mod laws;
mod limits;
mod object_class;
mod op;
mod payload;
mod queue;
mod register;
mod table;
mod value;

pub use account::Account;
pub use counter::Counter;
pub use gone::Gone;
pub use laws::{operations_keep, payloads_tell_values_apart};
pub use limits::{QUEUE_NUMBERS, REGISTER_BYTES, REGISTER_BYTES_ONE, TABLE_PAIRS};
pub use object_class::{ClassFault, ObjectClass};
pub use op::{Answer, ApplyFault, Op};
pub use queue::Queue;
pub use register::{Register, register_bytes};
pub use table::Table;
pub use value::Value;
