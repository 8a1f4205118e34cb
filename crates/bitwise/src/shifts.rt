// `<<` and `>>`: the left operand is an integer, the count converts to U32.
ghost use Rattle.std.specs.Prelude.{◌≡◌};
ghost use Rattle.integer.specs.Range.{pick};
ghost use Rattle.value.specs.Answer.{answer_of};
ghost use Rattle.conversion.specs.Convert.{convert_to};
ghost use Rattle.bitwise.specs.Shift.{by_count, shift_by, shl_exact, shl_of, shl_wrapped, shr_exact, shr_of, shr_reduced};

use conversion::convert::convert;
use value::{Answer, OperatorError, Scalar, ShaderStage};

// The width of I32 and of U32.
const WIDTH: u32 = 32;

// Left in Const and Override: the exact product, or ShlOverflow with the count and l.
fn shl_exact(l: Scalar, n: u32) -> Answer
    ensures { answer_of result ≡ shl_exact l n }
{
    let why = OperatorError::ShlOverflow(n, l);
    match l {
        Scalar::AbstractInt(x) => shift::shl_i64(x, n).map(Scalar::AbstractInt).ok_or(why),
        Scalar::I32(x) => shift::shl_i32(x, n).map(Scalar::I32).ok_or(why),
        Scalar::U32(x) => shift::shl_u32(x, n).map(Scalar::U32).ok_or(why),
        _ => Err(OperatorError::Binary),
    }
}

// Left in Exec: the product wraps.
fn shl_wrapped(l: Scalar, n: u32) -> Answer
    ensures { answer_of result ≡ shl_wrapped l n }
{
    match l {
        Scalar::AbstractInt(x) => { Ok(Scalar::AbstractInt(shift::shl_wrapping_i64(x, n))) }
        Scalar::I32(x) => Ok(Scalar::I32(shift::shl_wrapping_i32(x, n))),
        Scalar::U32(x) => Ok(Scalar::U32(shift::shl_wrapping_u32(x, n))),
        _ => Err(OperatorError::Binary),
    }
}

// Right: the floor; Const and Override refuse a count of the width or more, and Exec takes it modulo the width; AbstractInt takes any.
fn shr_floor(strict: bool, l: Scalar, n: u32) -> Answer
    ensures { answer_of result ≡ pick strict (shr_exact l n) (shr_reduced l n) }
{
    match l {
        Scalar::AbstractInt(x) => { Ok(Scalar::AbstractInt(shift::shr_i64(x, n))) }
        Scalar::I32(x) => {
            if strict & (WIDTH <= n) {
                return Err(OperatorError::ShrOverflow(n, l));
            }
            Ok(Scalar::I32(shift::shr_i32(x, n)))
        }
        Scalar::U32(x) => {
            if strict & (WIDTH <= n) {
                return Err(OperatorError::ShrOverflow(n, l));
            }
            Ok(Scalar::U32(shift::shr_u32(x, n)))
        }
        _ => Err(OperatorError::Binary),
    }
}

// l to the left or to the right by n.
fn shift_by(right: bool, stage: ShaderStage, l: Scalar, n: u32) -> Answer
    ensures { answer_of result ≡ shift_by right stage l n }
{
    let strict = value::strict(stage);
    if right {
        return shr_floor(strict, l, n);
    }
    if strict {
        return shl_exact(l, n);
    }
    shl_wrapped(l, n)
}

// l to the right or to the left by a count, which has to be a U32.
pub fn shift(right: bool, stage: ShaderStage, l: Scalar, count: Option<Scalar>) -> Answer
    ensures { answer_of result ≡ by_count count (shift_by right stage l) }
{
    let Some(Scalar::U32(n)) = count else {
        return Err(OperatorError::Binary);
    };
    shift_by(right, stage, l, n)
}

// `<<`, the count converted to U32.
pub fn op_shl(l: Scalar, r: Scalar, stage: ShaderStage) -> Answer
    ensures { answer_of result ≡ shl_of stage l (convert_to 4 r) }
{
    shift(false, stage, l, convert(4, r))
}

// `>>`, the count converted to U32.
pub fn op_shr(l: Scalar, r: Scalar, stage: ShaderStage) -> Answer
    ensures { answer_of result ≡ shr_of stage l (convert_to 4 r) }
{
    shift(true, stage, l, convert(4, r))
}
