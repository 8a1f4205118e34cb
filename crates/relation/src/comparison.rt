// `== != < <= > >=`, by their codes 8 to 13: one function for the six.
ghost use Rattle.std.specs.Prelude.{◌≡◌, Some};
ghost use Rattle.rounding.specs.Bits.{of_bits};
ghost use Rattle.rounding.specs.Kind.{half};
ghost use Rattle.value.specs.Answer.{answer_of};
ghost use Rattle.relation.specs.Comparison.{as_numbers, compared, eq_of, ge_of, gt_of, le_of, lt_of, ne_of, numbers_of, reals_by, wholes_by};
ghost use Rattle.conversion.specs.Convert.{common_of};

use crate::Numbers;
use conversion::common::common;
use rounding::half_to_f32;
use std::num::f32_to_f64_with_nan;
use value::{Answer, OperatorError, Pair, Scalar};

// The comparison of a code, with the operands' own operators. A function over `PartialOrd` would compare floats by up to three tests.
macro_rules! by_code {
    ($op:expr, $x:expr, $y:expr) => {
        match $op {
            8 => $x == $y,
            9 => $x != $y,
            10 => $x < $y,
            11 => $x <= $y,
            12 => $x > $y,
            _ => $x >= $y,
        }
    };
}

// The value of an F16, which 64 bits hold.
fn half_to_f64(bits: u16) -> f64
    ensures { result ≡ of_bits half bits }
{
    f32_to_f64_with_nan(half_to_f32(bits))
}

// Two operands of one type as the numbers that they are, which 64 bits hold.
fn numbers(p: Pair) -> Numbers
    ensures { result ≡ as_numbers p }
{
    match p {
        Pair::Bool(x, y) => Numbers::Truths(x, y),
        Pair::AbstractInt(x, y) => Numbers::Wholes(x, y),
        Pair::AbstractFloat(x, y) => Numbers::Reals(x, y),
        Pair::I32(x, y) => Numbers::Wholes(i64::from(x), i64::from(y)),
        Pair::U32(x, y) => Numbers::Wholes(i64::from(x), i64::from(y)),
        Pair::F32(x, y) => Numbers::Reals(f32_to_f64_with_nan(x), f32_to_f64_with_nan(y)),
        Pair::F16(x, y) => Numbers::Reals(half_to_f64(x), half_to_f64(y)),
    }
}

// Two truths: equal or not; they have no order.
fn compare_truths(op: u8, x: bool, y: bool) -> Answer
    ensures { answer_of result ≡ compared op (Some (Numbers.Truths x y)) }
{
    if 9 < op {
        return Err(OperatorError::Binary);
    }
    if op == 8 {
        return Ok(Scalar::Bool(x == y));
    }
    Ok(Scalar::Bool(x != y))
}

// Two whole numbers, by the code.
fn compare_wholes(op: u8, x: i64, y: i64) -> bool
    ensures { result ≡ wholes_by op x y }
{
    by_code!(op, x, y)
}

// Two floats, by the code.
fn compare_reals(op: u8, x: f64, y: f64) -> bool
    ensures { result ≡ reals_by op x y }
{
    by_code!(op, x, y)
}

// `== != < <= > >=`, by their codes 8 to 13, on two operands of one type; a lower code is taken as 9, a higher one as 13.
pub fn compare(op: u8, p: Option<Pair>) -> Answer
    ensures { answer_of result ≡ compared op (numbers_of p) }
{
    match numbers(p.ok_or(OperatorError::Binary)?) {
        Numbers::Truths(x, y) => compare_truths(op, x, y),
        Numbers::Wholes(x, y) => Ok(Scalar::Bool(compare_wholes(op, x, y))),
        Numbers::Reals(x, y) => Ok(Scalar::Bool(compare_reals(op, x, y))),
    }
}

// `==` of two operands.
pub fn op_eq(l: Scalar, r: Scalar) -> Answer
    ensures { answer_of result ≡ eq_of (common_of l r) }
{
    compare(8, common(l, r))
}

// `!=` of two operands.
pub fn op_ne(l: Scalar, r: Scalar) -> Answer
    ensures { answer_of result ≡ ne_of (common_of l r) }
{
    compare(9, common(l, r))
}

// `<` of two operands.
pub fn op_lt(l: Scalar, r: Scalar) -> Answer
    ensures { answer_of result ≡ lt_of (common_of l r) }
{
    compare(10, common(l, r))
}

// `<=` of two operands.
pub fn op_le(l: Scalar, r: Scalar) -> Answer
    ensures { answer_of result ≡ le_of (common_of l r) }
{
    compare(11, common(l, r))
}

// `>` of two operands.
pub fn op_gt(l: Scalar, r: Scalar) -> Answer
    ensures { answer_of result ≡ gt_of (common_of l r) }
{
    compare(12, common(l, r))
}

// `>=` of two operands.
pub fn op_ge(l: Scalar, r: Scalar) -> Answer
    ensures { answer_of result ≡ ge_of (common_of l r) }
{
    compare(13, common(l, r))
}
