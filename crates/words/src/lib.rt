// The words of a command, each ended by a byte 0, and the numbers that they spell.
#![tactic(auto)]

mod number;
mod split;

pub use number::{decimal, hex};
pub use split::{count, end_of, word};
