//! The generated bank on a machine.
//!
//! It stands on `arj_gen`, which makes the bank's script, and on `arj_loop`, whose machine runs it. The contract that it gives
//! upward is that of `generated`: the bank of the number was run (`specs/Bank.antt`), and the sink took its summary
//! (`specs/Summary.antt`), the sum of which is read from the disks (`specs/Balances.antt`).
#![tactic(auto)]

mod balances;
mod run;
mod stop;
mod summary;
mod summed;

pub use summed::generated;
