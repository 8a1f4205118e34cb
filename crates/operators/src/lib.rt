// The operators under the Rust's names, on scalars, vectors and matrices. One whose answer depends on no stage takes none.
// Each is a function of its own, though all are one by a code: the names are the Rust's, and callers of the Rust look for them.
#![tactic(auto)]

ghost use Rattle.std.specs.Prelude.{◌≡◌};
ghost use Rattle.pairing.specs.Pairing.{stage_code};
ghost use Rattle.dispatch.specs.Meaning.{unary_meaning, binary_meaning};

use operand::{Instance, Outcome};
use pairing::stage_code;
use shape::{binary, unary};
use value::ShaderStage;

// The binary operator of a code, at a stage.
fn staged(op: u8, stage: ShaderStage, l: Instance, r: Instance) -> Outcome
    ensures { result ≡ binary_meaning op (stage_code stage) l r }
{
    binary(op, stage_code(stage), l, r)
}

// Logical negation.
pub fn op_not(v: Instance) -> Outcome
    ensures { result ≡ unary_meaning 1 0 v }
{
    unary(1, 0, v)
}

// Negation.
pub fn op_neg(v: Instance) -> Outcome
    ensures { result ≡ unary_meaning 2 0 v }
{
    unary(2, 0, v)
}

// Bitwise complement.
pub fn op_bitnot(v: Instance) -> Outcome
    ensures { result ≡ unary_meaning 3 0 v }
{
    unary(3, 0, v)
}

// Logical or of two scalars, both worked out.
pub fn op_or(l: Instance, r: Instance) -> Outcome
    ensures { result ≡ binary_meaning 1 0 l r }
{
    binary(1, 0, l, r)
}

// Logical and of two scalars, both worked out.
pub fn op_and(l: Instance, r: Instance) -> Outcome
    ensures { result ≡ binary_meaning 2 0 l r }
{
    binary(2, 0, l, r)
}

// Sum.
pub fn op_add(l: Instance, r: Instance, stage: ShaderStage) -> Outcome
    ensures { result ≡ binary_meaning 3 (stage_code stage) l r }
{
    staged(3, stage, l, r)
}

// Difference.
pub fn op_sub(l: Instance, r: Instance, stage: ShaderStage) -> Outcome
    ensures { result ≡ binary_meaning 4 (stage_code stage) l r }
{
    staged(4, stage, l, r)
}

// Product: by component, or vector and matrix, or matrix and matrix.
pub fn op_mul(l: Instance, r: Instance, stage: ShaderStage) -> Outcome
    ensures { result ≡ binary_meaning 5 (stage_code stage) l r }
{
    staged(5, stage, l, r)
}

// Quotient, truncated for integers.
pub fn op_div(l: Instance, r: Instance, stage: ShaderStage) -> Outcome
    ensures { result ≡ binary_meaning 6 (stage_code stage) l r }
{
    staged(6, stage, l, r)
}

// Remainder, with the left operand's sign.
pub fn op_rem(l: Instance, r: Instance, stage: ShaderStage) -> Outcome
    ensures { result ≡ binary_meaning 7 (stage_code stage) l r }
{
    staged(7, stage, l, r)
}

// Equal.
pub fn op_eq(l: Instance, r: Instance) -> Outcome
    ensures { result ≡ binary_meaning 8 0 l r }
{
    binary(8, 0, l, r)
}

// Unequal.
pub fn op_ne(l: Instance, r: Instance) -> Outcome
    ensures { result ≡ binary_meaning 9 0 l r }
{
    binary(9, 0, l, r)
}

// Less.
pub fn op_lt(l: Instance, r: Instance) -> Outcome
    ensures { result ≡ binary_meaning 10 0 l r }
{
    binary(10, 0, l, r)
}

// Less or equal.
pub fn op_le(l: Instance, r: Instance) -> Outcome
    ensures { result ≡ binary_meaning 11 0 l r }
{
    binary(11, 0, l, r)
}

// Greater.
pub fn op_gt(l: Instance, r: Instance) -> Outcome
    ensures { result ≡ binary_meaning 12 0 l r }
{
    binary(12, 0, l, r)
}

// Greater or equal.
pub fn op_ge(l: Instance, r: Instance) -> Outcome
    ensures { result ≡ binary_meaning 13 0 l r }
{
    binary(13, 0, l, r)
}

// Bitwise or; of Bool the logical one.
pub fn op_bitor(l: Instance, r: Instance) -> Outcome
    ensures { result ≡ binary_meaning 14 0 l r }
{
    binary(14, 0, l, r)
}

// Bitwise and; of Bool the logical one.
pub fn op_bitand(l: Instance, r: Instance) -> Outcome
    ensures { result ≡ binary_meaning 15 0 l r }
{
    binary(15, 0, l, r)
}

// Bitwise exclusive or.
pub fn op_bitxor(l: Instance, r: Instance) -> Outcome
    ensures { result ≡ binary_meaning 16 0 l r }
{
    binary(16, 0, l, r)
}

// Left shift by a U32 count.
pub fn op_shl(l: Instance, r: Instance, stage: ShaderStage) -> Outcome
    ensures { result ≡ binary_meaning 17 (stage_code stage) l r }
{
    staged(17, stage, l, r)
}

// Right shift by a U32 count.
pub fn op_shr(l: Instance, r: Instance, stage: ShaderStage) -> Outcome
    ensures { result ≡ binary_meaning 18 (stage_code stage) l r }
{
    staged(18, stage, l, r)
}
