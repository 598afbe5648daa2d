//! Lines that are read from a source and handed to who takes them, one after another, where how long a line may be depends on
//! its place.
//!
//! It stands on `arj_io`, which has the source, and on the cutter of `arj_script`. What takes the lines is a trait, `Taker`: it
//! says how long the next line may be, takes it, or says why reading ends there. The contract that it gives upward is that of
//! `read_lines`: which bytes came, which of their lines were taken, and where and why reading ended (`specs/Reading.antt`).
#![tactic(auto)]

mod ending;
mod limits;
mod reading;
mod taker;

pub use ending::Ending;
pub use reading::read_lines;
pub use taker::Taker;
