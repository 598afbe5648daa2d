//! A disk: files under names, each call stable once it has returned, and stops that leave a call undone, done or,
//! for a write, torn.
//!
//! It stands on `arj_base`. What it gives upward: the contract of the trait `Disk`, which says what each call leaves
//! also where it was stopped (`specs/Disk.antt`); `put`, the one way in which files are put, old or new and nothing
//! between; disks in memory; and a rack of sixteen.
#![tactic(auto)]

mod disk;
mod files;
mod laws;
mod limits;
mod memory;
mod putting;
mod rack;
mod slot;
mod trigger;

pub use disk::{Disk, DiskFault};
pub use laws::{among_so_many, orders, roles_apart};
pub use limits::{LAST_ARM, MOST_KNOWN, MOST_PREPARED};
pub use memory::{MemDisk, SureDisk};
pub use putting::put;
pub use rack::Rack;
pub use slot::{Outcome, Role, Slot, Slots, role_of_uid};
