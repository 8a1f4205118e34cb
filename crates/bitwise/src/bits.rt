// `|`, `&` and `^`, bit by bit: one function for the three, by their codes 14 to 16.
ghost use Rattle.std.specs.Prelude.{◌≡◌};
ghost use Rattle.std.specs.Int.{w32, w64};
ghost use Rattle.value.specs.Answer.{answer_of};
ghost use Rattle.bitwise.specs.Bits.{bit_and_of, bit_not_of, bit_or_of, bit_xor_of, bits_by, bitwise, signed_bits, truths_by};
ghost use Rattle.conversion.specs.Convert.{common_of};

use conversion::common::common;
use value::{Answer, OperatorError, Pair, Scalar};

// The operator of a code, with the operands' own.
macro_rules! by_code {
    ($op:expr, $x:expr, $y:expr) => {
        match $op {
            14 => $x | $y,
            15 => $x & $y,
            _ => $x ^ $y,
        }
    };
}

// `|` and `&` of two truths; `^` has none.
fn join_truths(op: u8, x: bool, y: bool) -> Answer
    ensures { answer_of result ≡ truths_by op x y }
{
    match op {
        14 => Ok(Scalar::Bool(x | y)),
        15 => Ok(Scalar::Bool(x & y)),
        _ => Err(OperatorError::Binary),
    }
}

// An operator on the bits of two signed numbers of 64 bits.
fn join_i64(op: u8, x: i64, y: i64) -> i64
    ensures { result ≡ signed_bits w64 (bits_by op) x y }
{
    by_code!(op, x, y)
}

// An operator on the bits of two signed numbers of 32 bits.
fn join_i32(op: u8, x: i32, y: i32) -> i32
    ensures { result ≡ signed_bits w32 (bits_by op) x y }
{
    by_code!(op, x, y)
}

// An operator on the bits of two numbers of 32 bits.
fn join_u32(op: u8, x: u32, y: u32) -> u32
    ensures { result ≡ bits_by op x y }
{
    by_code!(op, x, y)
}

// `| & ^`, by their codes 14 to 16, on two operands of one type; every other code is taken as 16.
pub fn bits_pair(op: u8, p: Option<Pair>) -> Answer
    ensures { answer_of result ≡ bitwise (truths_by op) (bits_by op) p }
{
    let Some(p) = p else {
        return Err(OperatorError::Binary);
    };
    match p {
        Pair::Bool(x, y) => join_truths(op, x, y),
        Pair::AbstractInt(x, y) => Ok(Scalar::AbstractInt(join_i64(op, x, y))),
        Pair::I32(x, y) => Ok(Scalar::I32(join_i32(op, x, y))),
        Pair::U32(x, y) => Ok(Scalar::U32(join_u32(op, x, y))),
        _ => Err(OperatorError::Binary),
    }
}

// `|` after the common type.
pub fn op_bitor(l: Scalar, r: Scalar) -> Answer
    ensures { answer_of result ≡ bit_or_of (common_of l r) }
{
    bits_pair(14, common(l, r))
}

// `&` after the common type.
pub fn op_bitand(l: Scalar, r: Scalar) -> Answer
    ensures { answer_of result ≡ bit_and_of (common_of l r) }
{
    bits_pair(15, common(l, r))
}

// `^` after the common type.
pub fn op_bitxor(l: Scalar, r: Scalar) -> Answer
    ensures { answer_of result ≡ bit_xor_of (common_of l r) }
{
    bits_pair(16, common(l, r))
}

// `~`, which integers have.
pub fn op_bitnot(s: Scalar) -> Answer
    ensures { answer_of result ≡ bit_not_of s }
{
    match s {
        Scalar::AbstractInt(x) => Ok(Scalar::AbstractInt(!x)),
        Scalar::I32(x) => Ok(Scalar::I32(!x)),
        Scalar::U32(x) => Ok(Scalar::U32(!x)),
        _ => Err(OperatorError::Unary),
    }
}
