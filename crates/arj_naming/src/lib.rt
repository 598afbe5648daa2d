//! The naming service of node 1: who serves an object and who stores it, under locks, as Arjuna's naming and binding
//! service has it.
//!
//! Per object it keeps the live binding to a server, the bindings that were made, and the locks on the entry, which tops
//! hold. Entries are persistent: a Confirm prepares new ones in a store, and the end of its top commits or aborts them. What
//! is committed and prepared of them is in memory too, so a Bind makes no disk call. A call finds its objects by number, by
//! action and by server, and prepared entries by action and by entry: no call walks what it isn't about, but a restart, and
//! the lists of all holders and of all that is prepared.
//!
//! It stands on `arj_lock` (the locks), `arj_store` (the entries on the disk), `arj_msg` and the definitions of
//! `arj_protocol`. What it gives upward: each call of `Naming` is its function of the protocol: the part after it, the lines, the
//! answer, and the pair of entries on the disk. A stopped call is a cut of its effects at a work (`specs/Kept.antt`).
#![tactic(auto)]

mod bindings;
mod bound;
mod by_entry;
mod change;
mod checks;
mod confirm;
mod counter;
mod entries;
mod format;
mod found;
mod lines;
mod listing;
mod locks;
mod made;
mod memory;
mod naming;
mod nobody;
mod object;
mod part;
mod payload;
mod pending;
mod recover;
mod show;
mod stage;
mod told;
mod touched;
mod uids;

pub use naming::Naming;
