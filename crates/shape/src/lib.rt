// The operators by their codes, on scalars, vectors and matrices. A scalar's own operations are those of the crate `scalar`, known here
// by their contracts alone.
//   scalars.rt     an operator on scalars, without arrays
#![tactic(auto)]

ghost use Rattle.std.specs.Prelude.{◌≡◌};
ghost use Rattle.operand.specs.Operand.{a_scalar};
ghost use Rattle.dispatch.specs.Meaning.{unary_meaning, binary_meaning};

mod scalars;

use operand::{Instance, Outcome, formed, is_scalar, refused};
use pairing::{call_fault, op_known, unary_known};

// The unary operator of a code on a scalar, by its type and pattern.
#[inline(always)]
pub fn unary_scalar(op: u8, stage: u8, ty: u8, bits: u64) -> Outcome
    ensures { result ≡ unary_meaning op stage (a_scalar ty bits) }
{
    scalars::settled(scalars::unary(op, stage, ty, bits))
}

// The unary operator of a code, on any operand: operator and stage are judged first, then the operand.
pub fn unary(op: u8, stage: u8, v: Instance) -> Outcome
    ensures { result ≡ unary_meaning op stage v }
{
    if is_scalar(v.shape()) {
        return unary_scalar(op, stage, v.ty, v.comps[0]);
    }
    any_unary(op, stage, v)
}

// The same in any shape.
fn any_unary(op: u8, stage: u8, v: Instance) -> Outcome
    ensures { result ≡ unary_meaning op stage v }
{
    let s = v.shape();
    if let Err(number) = call_fault(unary_known(op), stage, formed(v.ty, s, &v.comps)) {
        return refused(number, 0);
    }
    dispatch::unary_judge(op, v.ty, s, &v.comps)
}

// The binary operator of a code on two scalars, by their types and patterns.
#[inline(always)]
pub fn binary_scalars(op: u8, stage: u8, lt: u8, l: u64, rt: u8, r: u64) -> Outcome
    ensures { result ≡ binary_meaning op stage (a_scalar lt l) (a_scalar rt r) }
{
    scalars::settled(scalars::binary(op, stage, lt, l, rt, r))
}

// The binary operator of a code, on any operands: operator and stage are judged first, then the operands, left first.
pub fn binary(op: u8, stage: u8, l: Instance, r: Instance) -> Outcome
    ensures { result ≡ binary_meaning op stage l r }
{
    if is_scalar(l.shape()) & is_scalar(r.shape()) {
        return binary_scalars(op, stage, l.ty, l.comps[0], r.ty, r.comps[0]);
    }
    any_binary(op, stage, l, r)
}

// The same in any shapes.
fn any_binary(op: u8, stage: u8, l: Instance, r: Instance) -> Outcome
    ensures { result ≡ binary_meaning op stage l r }
{
    let a = l.shape();
    let b = r.shape();
    let both = formed(l.ty, a, &l.comps) & formed(r.ty, b, &r.comps);
    if let Err(number) = call_fault(op_known(op), stage, both) {
        return refused(number, 0);
    }
    dispatch::judge(op, stage, l.ty, a, &l.comps, r.ty, b, &r.comps)
}
