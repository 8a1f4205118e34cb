// Numbers at a precision. A kind of float is two numbers, how many digits a significand has and how
// far the exponents reach: F16 is 11 and 15, F32 24 and 127, F64 53 and 1023. Everything here that
// rounds does so once, to the nearest value of the kind, a tie to the even one.
//
// An F16 is its bits, in a u16. A NaN is kept as one pattern of each kind: 7E00, 7FC00000 and
// 7FF8000000000000.
#![tactic(auto)]

mod floats; // F32 and F64 as one
mod kind; // a kind: its digits and its reach
mod narrow; // to a kind: f64, f32 and i64 to F16, f32 and f64
mod patterns; // which F16s are finite
mod places; // the core: a whole number rounded by a number of places
mod widen; // from F16 to f32

pub use floats::Float;
pub use narrow::{f32_to_half, f64_to_f32, f64_to_half, i64_to_f32, i64_to_f64, i64_to_half};
pub use patterns::finite_half;
pub use widen::half_to_f32;
