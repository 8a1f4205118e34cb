// The entries of an accepted sheet by their numbers: where their records lie, which are settings, and which depend on which.
#![tactic(auto)]

mod depend; // depend.rt: the dependents of an entry, by one pass
mod spans; // spans.rt: the record at a place

pub use depend::dependents;
pub use spans::{begin, place_after, setting_at, span_at};

// A record's stage byte, where its body starts and how long it is, and the place after the record.
#[derive(Clone, Copy, Debug, PartialEq, Eq)]
pub struct Span {
    pub stage: u8,
    pub start: usize,
    pub len: usize,
    pub next: usize,
}
