// An operator on scalars, which go by their types and patterns and without arrays: the checks of `unary` and `binary` in their order.
ghost use Rattle.std.specs.Prelude.{◌≡◌, true, Some};
ghost use Rattle.operand.specs.Operand.{operand_formed, a_scalar};
ghost use Rattle.pairing.specs.Pairing.{targets_of};
ghost use Rattle.dispatch.specs.Meaning.{converted_to, unary_meaning, binary_meaning};
ghost use Rattle.shape.specs.Scalars.{step_answer};

use operand::{Outcome, answered, refused_as, scalar};
use pairing::{call_fault, op_known, targets_of, unary_known};
use scalar::{Step, refusal};
use value::refusals;

// A step as an answer.
pub(crate) fn settled(step: Step) -> Outcome
    ensures { result ≡ step_answer step }
{
    match step {
        Ok((ty, bits)) => answered(scalar(ty, bits)),
        Err(r) => refused_as(r),
    }
}

// A unary operator: operator and stage are judged first, then the operand. The step refuses a type without the right, and nothing else.
pub(crate) fn unary(op: u8, stage: u8, ty: u8, bits: u64) -> Step
    ensures { step_answer result ≡ unary_meaning op stage (a_scalar ty bits) }
{
    call_fault(unary_known(op), stage, value::proper(ty, bits)).map_err(refusal)?;
    scalar::unary_step(op, ty, bits)
}

// Conversions of both, left first, and the step, which refuses a type without the right. Patterns that have their types are worked
// on as they stand.
fn convert(op: u8, stage: u8, x: u8, y: u8, lt: u8, l: u64, rt: u8, r: u64) -> Step
    requires { (operand_formed (a_scalar lt l) ≡ true) × (operand_formed (a_scalar rt r) ≡ true) × (targets_of op lt rt ≡ Some (x, y)) }
    ensures { step_answer result ≡ converted_to x y op stage (a_scalar lt l) (a_scalar rt r) }
{
    if (lt == x) & (rt == y) {
        return scalar::binary_step(op, stage, x, l, r);
    }
    let none = refusal(refusals::BINARY);
    let p = scalar::convert_step(lt, x, l).ok_or(none)?;
    let q = scalar::convert_step(rt, y, r).ok_or(none)?;
    scalar::binary_step(op, stage, x, p, q)
}

// A binary operator: operator and stage are judged first, then the operands, and then whether they have a common type.
pub(crate) fn binary(op: u8, stage: u8, lt: u8, l: u64, rt: u8, r: u64) -> Step
    ensures { step_answer result ≡ binary_meaning op stage (a_scalar lt l) (a_scalar rt r) }
{
    let formed = value::proper(lt, l) & value::proper(rt, r);
    call_fault(op_known(op), stage, formed).map_err(refusal)?;
    let (x, y) = targets_of(op, lt, rt).ok_or(refusal(refusals::BINARY))?;
    convert(op, stage, x, y, lt, l, rt, r)
}
