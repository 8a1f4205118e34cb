// Every operator by its code, on patterns: what the layer above calls.
#![tactic(auto)]

mod products;

ghost use Rattle.std.specs.Prelude.{◌≡◌};
ghost use Rattle.value.specs.Answer.{answer_of, refusal, unary};
ghost use Rattle.scalar.specs.Step.{binary_of, conv_of, on_scalar, product_added, shift_of, step_of, stepped, unary_of, unary_step_of};

use bitwise::{bits, shifts};
use conversion::convert;
use relation::{comparison, logical};
use value::{Answer, OperatorError, Pair, Refusal, Scalar, ShaderStage, pattern, said, stage_of};

// One operation: the result's type and bits, or a refusal.
pub type Step = Result<(u8, u64), Refusal>;

// A refusal without a detail and an operand.
pub fn refusal(number: u8) -> Refusal
    ensures { result ≡ refusal number 0 }
{
    Refusal {
        number,
        detail: 0,
        ty: 0,
        bits: 0,
    }
}

// An answer as a step. Type and bits are asked for in one place, which keeps this small enough to be part of its callers.
fn step_of(a: Answer) -> Step
    ensures { result ≡ stepped (answer_of a) }
{
    let s = said::scalar_in(a);
    let ty = value::type_of(s);
    let bits = pattern::bits_of(s);
    match a {
        Ok(_) => Ok((ty, bits)),
        Err(e) => Err(Refusal {
            number: e.number(),
            detail: e.detail(),
            ty,
            bits,
        }),
    }
}

// A binary operator but a shift, by its code, on two operands of one type: 01 has one step chosen by the operator's code. Arithmetic, which is asked
// for most, is tested for first.
fn binary_op(op: u8, stage: ShaderStage, p: Option<Pair>) -> Answer
    ensures { answer_of result ≡ binary_of op stage p }
{
    if (3 <= op) & (op <= 7) {
        return arithmetic::arithmetic_pair(op, stage, p);
    }
    match op {
        1 => logical::or_pair(p),
        2 => logical::and_pair(p),
        8..=13 => comparison::compare(op, p),
        14..=16 => bits::bits_pair(op, p),
        _ => Err(OperatorError::Binary),
    }
}

// A shift, by its code. With `ok_or` and `?` in the place of the `let else` a shift takes longer.
fn shift_op(op: u8, stage: ShaderStage, l: Option<Scalar>, count: Option<Scalar>) -> Answer
    ensures { answer_of result ≡ shift_of op stage l count }
{
    let Some(s) = l else {
        return Err(OperatorError::Binary);
    };
    match op {
        17 | 18 => shifts::shift(op == 18, stage, s, count),
        _ => Err(OperatorError::Binary),
    }
}

// A unary operator, by its code.
fn unary_op(op: u8, v: Option<Scalar>) -> Answer
    ensures { answer_of result ≡ on_scalar v (unary_of op) unary }
{
    let Some(s) = v else {
        return Err(OperatorError::Unary);
    };
    match op {
        1 => logical::op_not(s),
        2 => arithmetic::op_neg(s),
        3 => bits::op_bitnot(s),
        _ => Err(OperatorError::Unary),
    }
}

// A binary operator on two patterns of one type; a shift's right one is a U32's.
pub fn binary_step(op: u8, stage: u8, ty: u8, l: u64, r: u64) -> Step
    ensures { result ≡ step_of op stage ty l r }
{
    let at = stage_of(stage);
    if 17 <= op {
        let x = pattern::scalar_of(ty, l);
        return step_of(shift_op(op, at, x, pattern::scalar_of(4, r)));
    }
    step_of(binary_op(op, at, pattern::pair_of(ty, l, r)))
}

// The product of two patterns of one type, by a kernel where the type has one: the same as the step of code 5.
// In F64 every stage asks for finite results; in F32 Const and Override do, the codes below 2.
pub fn product(stage: u8, ty: u8, l: u64, r: u64) -> Step
    ensures { result ≡ step_of 5 stage ty l r }
{
    if ty == 2 {
        return products::float_times::<f64>(true, 2, l, r);
    }
    if (ty == 5) & (l < 0x1_0000_0000) & (r < 0x1_0000_0000) {
        return products::float_times::<f32>(stage < 2, 5, l, r);
    }
    if (ty == 6) & (l < 0x1_0000) & (r < 0x1_0000) {
        return products::half_times(stage, l as u16, r as u16);
    }
    binary_step(5, stage, ty, l, r)
}

// The product of two patterns of one type, and the sum with it.
pub fn add_product(stage: u8, ty: u8, sum: u64, l: u64, r: u64) -> Step
    ensures { result ≡ product_added stage ty sum l r }
{
    if ty == 2 {
        return products::float_product::<f64>(true, 2, sum, l, r);
    }
    if (ty == 5) & (sum < 0x1_0000_0000) & (l < 0x1_0000_0000) & (r < 0x1_0000_0000) {
        return products::float_product::<f32>(stage < 2, 5, sum, l, r);
    }
    if (ty == 6) & (sum < 0x1_0000) & (l < 0x1_0000) & (r < 0x1_0000) {
        return products::half_product(stage, sum as u16, l as u16, r as u16);
    }
    products::any_product(stage, ty, sum, l, r)
}

// A unary operator on a pattern.
pub fn unary_step(op: u8, ty: u8, v: u64) -> Step
    ensures { result ≡ unary_step_of op ty v }
{
    step_of(unary_op(op, pattern::scalar_of(ty, v)))
}

// A pattern of one type as one of another, if it has one.
pub fn convert_step(from: u8, to: u8, bits: u64) -> Option<u64>
    ensures { result ≡ conv_of from to bits }
{
    let s = pattern::scalar_of(from, bits)?;
    let t = convert::convert(to, s)?;
    Some(pattern::bits_of(t))
}
