// Comparisons, and the operators on truths.
#![tactic(auto)]

pub mod comparison;
pub mod logical;

// Two operands of one type as the numbers that they are.
#[derive(Clone, Copy, Debug, PartialEq)]
pub(crate) enum Numbers {
    Truths(bool, bool),
    Wholes(i64, i64),
    Reals(f64, f64),
}
