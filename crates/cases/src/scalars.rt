// Operators on scalars, under the names that they have in Rust.
ghost use Rattle.std.specs.Prelude.{◌≡◌};
ghost use Rattle.value.specs.Answer.{answer_of};
ghost use Rattle.cases.specs.Scalars.{unary_by, binary_by, scalar_read, packed_result, value_said};
ghost use Rattle.cases.specs.Judged.{result_said, scalar_right};

use crate::answers;
use bitwise::{bits, shifts};
use relation::{comparison, logical};
use value::pattern::{bits_of, scalar_of};
use value::{Answer, Scalar, ShaderStage, said, type_of};

// An answer's number and detail, packed as C has them.
fn packed(a: Answer) -> u64
    ensures { result ≡ packed_result (answer_of a) }
{
    (said::number(a) as u64) * 0x1_0000_0000 + said::detail(a) as u64
}

// The unary operator of a code; every other code is taken as 3.
fn unary(op: u8, v: Scalar) -> Answer
    ensures { answer_of result ≡ unary_by op v }
{
    match op {
        1 => logical::op_not(v),
        2 => arithmetic::op_neg(v),
        _ => bits::op_bitnot(v),
    }
}

// The binary operator of a code; every other code is taken as 16.
fn binary(op: u8, stage: ShaderStage, l: Scalar, r: Scalar) -> Answer
    ensures { answer_of result ≡ binary_by op stage l r }
{
    match op {
        1 => logical::op_or(l, r),
        2 => logical::op_and(l, r),
        3 => arithmetic::op_add(l, r, stage),
        4 => arithmetic::op_sub(l, r, stage),
        5 => arithmetic::op_mul(l, r, stage),
        6 => arithmetic::op_div(l, r, stage),
        7 => arithmetic::op_rem(l, r, stage),
        8 => comparison::op_eq(l, r),
        9 => comparison::op_ne(l, r),
        10 => comparison::op_lt(l, r),
        11 => comparison::op_le(l, r),
        12 => comparison::op_gt(l, r),
        13 => comparison::op_ge(l, r),
        14 => bits::op_bitor(l, r),
        15 => bits::op_bitand(l, r),
        17 => shifts::op_shl(l, r, stage),
        18 => shifts::op_shr(l, r, stage),
        _ => bits::op_bitxor(l, r),
    }
}

// Whether the value, or the operand carried, has the type and the bits that the rest of a record says; both are 0 where there is neither.
fn value_said(a: Answer, rest: &[u8]) -> bool
    ensures { result ≡ value_said (answer_of a) rest.now }
{
    let s = said::scalar_in(a);
    let ty = type_of(s);
    let bits = bits_of(s);
    (ty == low::byte(rest, 5)) & (bits == low::number(low::part(rest, 9, 8)))
}

// Whether an answer is the one that the rest of a record says: status, detail and value.
fn is_said(a: Answer, rest: &[u8]) -> bool
    ensures { result ≡ result_said (answer_of a) rest.now }
{
    answers(packed(a), rest) & value_said(a, rest)
}

// The scalar that is an operand; a list of scalars has no other.
fn scalar_in(operand: &[u8]) -> Scalar
    ensures { result ≡ scalar_read operand.now }
{
    let bits = low::number(low::part(operand, 4, 8));
    scalar_of(low::byte(operand, 0), bits).unwrap_or(Scalar::Bool(false))
}

// A record: kind (1 unary, 2 binary), operator, stage, one or two scalars of twelve bytes, and what must come out.
pub fn is_right(case: &[u8]) -> bool
    ensures { result ≡ scalar_right case.now }
{
    let op = low::byte(case, 1);
    let l = scalar_in(low::part(case, 3, 12));
    if low::byte(case, 0) == 1 {
        return is_said(unary(op, l), low::part(case, 15, 17));
    }
    let r = scalar_in(low::part(case, 15, 12));
    let stage = value::stage_of(low::byte(case, 2));
    is_said(binary(op, stage, l, r), low::part(case, 27, 17))
}
