//! An example: one crate of this repository, its lock table, in a program of one's own (`docs/START.md`). A hall sells its seats,
//! and no seat to two.
//!
//! It stands on `arj_base` and `arj_lock`. A customer is a top-level action, a seat an object, and who has a seat holds its write
//! lock until it leaves.
#![tactic(auto)]

mod hall;

use arj_lock::LockTable;
use hall::{customer, leave, take};
use std::io;

fn main(rt: HostRuntime) -> io::Result<()> {
    let mut hall = LockTable::new(rt.alloc());
    let (ann, bob) = (customer(1), customer(2));
    for (who, seat) in [(ann, 7), (ann, 8), (bob, 7), (bob, 9)] {
        match take(&mut hall, who, seat)? {
            None => println!(rt; "{} has seat {seat}", who.num)?,
            Some(other) => println!(rt;
                "{} can't have seat {seat}: {} has it",
                who.num, other.num
            )?,
        }
    }
    leave(&mut hall, ann);
    match take(&mut hall, bob, 7)? {
        None => println!(rt; "1 left, and 2 has seat 7")?,
        Some(_) => println!(rt; "1 left, and seat 7 isn't free")?,
    }
    Ok(())
}
