// `+ - * / %`, by their codes 3 to 7, and negation.
#![tactic(auto)]

ghost use Rattle.std.specs.Prelude.{◌≡◌, Some};
ghost use Rattle.std.specs.Float.Ieee.{neg};
ghost use Rattle.rounding.specs.Kind.{half, of_format};
ghost use Rattle.rounding.specs.Bits.{to_bits, of_bits};
ghost use Rattle.value.specs.Answer.{answer_of, refused_by};
ghost use Rattle.arithmetic.specs.Arithmetic.{add_of, arithmetic_by, div_of, mul_of, neg_of, rem_of, sub_of};
ghost use Rattle.arithmetic.specs.Arithmetic.{float_by, half_bits, in_exec, not_finite, value_or};
ghost use Rattle.conversion.specs.Convert.{common_of};

use conversion::common::common;
use integer::wrapping;
use rounding::{Float, f32_to_half, finite_half, half_to_f32};
use value::pattern::kept_scalar;
use value::{Answer, OperatorError, Pair, Scalar, ShaderStage};

// In Const and Override the refusal, in Exec the scalar.
fn in_exec(stage: ShaderStage, why: OperatorError, s: Scalar) -> Answer
    ensures { answer_of result ≡ in_exec stage (refused_by why) s }
{
    if value::strict(stage) {
        return Err(why);
    }
    Ok(s)
}

// What a float result that is not finite answers: `/` gives its left operand in Exec, and the others the result.
// The others look to a stage of their own, for in AbstractFloat they refuse in every stage.
fn not_finite(op: u8, own: ShaderStage, stage: ShaderStage, left: Scalar, s: Scalar) -> Answer
    ensures { answer_of result ≡ not_finite op own stage left s }
{
    match op {
        3 => in_exec(own, OperatorError::AddOverflow, s),
        4 => in_exec(own, OperatorError::SubOverflow, s),
        5 => in_exec(own, OperatorError::MulOverflow, s),
        6 => in_exec(stage, OperatorError::DivByZero, left),
        _ => in_exec(own, OperatorError::RemZeroDiv, s),
    }
}

// What was found, or else the other answer. 01 names the form: a let that returns early.
fn value_or(found: Option<Scalar>, other: Answer) -> Answer
    ensures { answer_of result ≡ value_or found (answer_of other) }
{
    let Some(s) = found else {
        return other;
    };
    Ok(s)
}

// `+ - * / %` of two AbstractInts. Here and in the two below each integer type has its own rule of what refuses, wraps or divides.
fn whole_arithmetic(op: u8, stage: ShaderStage, x: i64, y: i64) -> Answer
    ensures { answer_of result ≡ arithmetic_by op stage (Some (Pair.AbstractInt x y)) }
{
    match op {
        3 => exact::add_i64(x, y)
            .map(Scalar::AbstractInt)
            .ok_or(OperatorError::AddOverflow),
        4 => exact::sub_i64(x, y)
            .map(Scalar::AbstractInt)
            .ok_or(OperatorError::SubOverflow),
        5 => exact::mul_i64(x, y)
            .map(Scalar::AbstractInt)
            .ok_or(OperatorError::MulOverflow),
        6 => value_or(
            quotient::div_i64(x, y).map(Scalar::AbstractInt),
            in_exec(stage, OperatorError::DivByZero, Scalar::AbstractInt(x)),
        ),
        _ => value_or(
            quotient::rem_i64(x, y).map(Scalar::AbstractInt),
            in_exec(stage, OperatorError::RemZeroDiv, Scalar::AbstractInt(0)),
        ),
    }
}

// `+ - * / %` of two I32s.
fn signed_arithmetic(op: u8, stage: ShaderStage, x: i32, y: i32) -> Answer
    ensures { answer_of result ≡ arithmetic_by op stage (Some (Pair.I32 x y)) }
{
    match op {
        3 => Ok(Scalar::I32(x.wrapping_add(y))),
        4 => Ok(Scalar::I32(x.wrapping_sub(y))),
        5 => Ok(Scalar::I32(wrapping::mul_i32(x, y))),
        6 => value_or(
            quotient::div_i32(x, y).map(Scalar::I32),
            in_exec(stage, OperatorError::DivByZero, Scalar::I32(x)),
        ),
        _ => value_or(
            quotient::rem_i32(x, y).map(Scalar::I32),
            in_exec(stage, OperatorError::RemZeroDiv, Scalar::I32(0)),
        ),
    }
}

// `+ - * / %` of two U32s.
fn unsigned_arithmetic(op: u8, stage: ShaderStage, x: u32, y: u32) -> Answer
    ensures { answer_of result ≡ arithmetic_by op stage (Some (Pair.U32 x y)) }
{
    match op {
        3 => Ok(Scalar::U32(x.wrapping_add(y))),
        4 => Ok(Scalar::U32(x.wrapping_sub(y))),
        5 => Ok(Scalar::U32(wrapping::mul_u32(x, y))),
        6 => value_or(
            x.checked_div(y).map(Scalar::U32),
            in_exec(stage, OperatorError::DivByZero, Scalar::U32(x)),
        ),
        _ => value_or(
            x.checked_rem(y).map(Scalar::U32),
            in_exec(stage, OperatorError::RemZeroDiv, Scalar::U32(0)),
        ),
    }
}

// `+ - * / %` of two floats of 32 or 64 bits.
fn float_arithmetic<F: Float>(op: u8, x: F, y: F) -> F
    ensures { F.value result ≡ float_by op (of_format F.format) (F.value x) (F.value y) }
{
    match op {
        3 => x.plus(y),
        4 => x.minus(y),
        5 => x.times(y),
        6 => x.over(y),
        _ => remainder::rem(x, y),
    }
}

// `+ - * / %` of two F16s, worked in 32 bits and rounded once.
fn half_arithmetic(op: u8, x: u16, y: u16) -> u16
    ensures { result ≡ half_bits (float_by op) x y }
{
    f32_to_half(float_arithmetic(op, half_to_f32(x), half_to_f32(y)))
}

// The answer of two AbstractFloats: a result that is not finite refuses in every stage, but that of `/`.
fn double_answer(op: u8, stage: ShaderStage, x: f64, y: f64) -> Answer
    ensures { answer_of result ≡ arithmetic_by op stage (Some (Pair.AbstractFloat x y)) }
{
    let v = float_arithmetic(op, x, y);
    if Float::is_finite(v) {
        return Ok(Scalar::AbstractFloat(v));
    }
    not_finite(
        op,
        ShaderStage::Const,
        stage,
        Scalar::AbstractFloat(x),
        Scalar::AbstractFloat(v),
    )
}

// The answer of two F32s.
fn single_answer(op: u8, stage: ShaderStage, x: f32, y: f32) -> Answer
    ensures { answer_of result ≡ arithmetic_by op stage (Some (Pair.F32 x y)) }
{
    let v = float_arithmetic(op, x, y);
    if Float::is_finite(v) {
        return Ok(Scalar::F32(v));
    }
    not_finite(op, stage, stage, Scalar::F32(x), Scalar::F32(v))
}

// The answer of two F16s; the left operand is handed back with a NaN as it is kept.
fn half_answer(op: u8, stage: ShaderStage, x: u16, y: u16) -> Answer
    ensures { answer_of result ≡ arithmetic_by op stage (Some (Pair.F16 x y)) }
{
    let v = half_arithmetic(op, x, y);
    if finite_half(v) {
        return Ok(Scalar::F16(v));
    }
    let left = kept_scalar(Scalar::F16(x));
    not_finite(op, stage, stage, left, Scalar::F16(v))
}

// `+ - * / %`, by their codes 3 to 7, on two operands of one type; every other code is taken as 7.
pub fn arithmetic_pair(op: u8, stage: ShaderStage, p: Option<Pair>) -> Answer
    ensures { answer_of result ≡ arithmetic_by op stage p }
{
    let Some(p) = p else {
        return Err(OperatorError::Binary);
    };
    match p {
        Pair::Bool(_, _) => Err(OperatorError::Binary),
        Pair::AbstractInt(x, y) => whole_arithmetic(op, stage, x, y),
        Pair::AbstractFloat(x, y) => double_answer(op, stage, x, y),
        Pair::I32(x, y) => signed_arithmetic(op, stage, x, y),
        Pair::U32(x, y) => unsigned_arithmetic(op, stage, x, y),
        Pair::F32(x, y) => single_answer(op, stage, x, y),
        Pair::F16(x, y) => half_answer(op, stage, x, y),
    }
}

// `+` of two operands.
pub fn op_add(l: Scalar, r: Scalar, stage: ShaderStage) -> Answer
    ensures { answer_of result ≡ add_of stage (common_of l r) }
{
    arithmetic_pair(3, stage, common(l, r))
}

// `-` of two operands.
pub fn op_sub(l: Scalar, r: Scalar, stage: ShaderStage) -> Answer
    ensures { answer_of result ≡ sub_of stage (common_of l r) }
{
    arithmetic_pair(4, stage, common(l, r))
}

// `*` of two operands.
pub fn op_mul(l: Scalar, r: Scalar, stage: ShaderStage) -> Answer
    ensures { answer_of result ≡ mul_of stage (common_of l r) }
{
    arithmetic_pair(5, stage, common(l, r))
}

// `/` of two operands.
pub fn op_div(l: Scalar, r: Scalar, stage: ShaderStage) -> Answer
    ensures { answer_of result ≡ div_of stage (common_of l r) }
{
    arithmetic_pair(6, stage, common(l, r))
}

// `%` of two operands.
pub fn op_rem(l: Scalar, r: Scalar, stage: ShaderStage) -> Answer
    ensures { answer_of result ≡ rem_of stage (common_of l r) }
{
    arithmetic_pair(7, stage, common(l, r))
}

// The F16 with the other sign; a NaN as it is kept.
fn neg_half(bits: u16) -> u16
    ensures { result ≡ to_bits half (neg (of_bits half bits)) }
{
    if 0x7c00 < bits % 0x8000 {
        return 0x7e00;
    }
    if bits < 0x8000 {
        return bits + 0x8000;
    }
    bits - 0x8000
}

// `-`, which signed integers and floats have.
pub fn op_neg(s: Scalar) -> Answer
    ensures { answer_of result ≡ neg_of s }
{
    match s {
        Scalar::AbstractInt(x) => Ok(Scalar::AbstractInt(x.wrapping_neg())),
        Scalar::AbstractFloat(x) => Ok(Scalar::AbstractFloat(-x)),
        Scalar::I32(x) => Ok(Scalar::I32(x.wrapping_neg())),
        Scalar::F32(x) => Ok(Scalar::F32(-x)),
        Scalar::F16(x) => Ok(Scalar::F16(neg_half(x))),
        _ => Err(OperatorError::Unary),
    }
}
