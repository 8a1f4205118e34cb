// Numbers in bytes, low byte first, parts of a buffer, and what a refusal says.
#![tactic(auto)]

mod fields; // fields.rt: a byte, a part or a number at any place; what is past the end reads as 0
mod words; // words.rt: numbers in bytes that are all there

pub use fields::{byte, number, numbers, part, remaining, word};
pub use words::{get, get_words, put, put_words};

// A refusal: its number, which is 01's and leaves through C as it is (so it is no enum), and its byte place. The place comes first: then it lies
// where a Result of a place has its value, which is moved whole; behind the number it was moved in pieces, and a check took up to twice the time.
#[derive(Clone, Copy, Debug, PartialEq, Eq)]
pub struct Refused {
    pub place: usize,
    pub number: u8,
}
