// Which codes name an operator or a stage, and which shapes and types an operator takes.
#![tactic(auto)]

ghost use Rattle.std.specs.Prelude.{◌≡◌};
ghost use Rattle.pairing.specs.Pairing.{op_known, unary_known, stage_code, stage_known, call_fault, pair_ok, targets_of, is_product, inner_ok, same_shape, fits_of, misfit_of, result_shape};

use operand::{Shape, is_matrix, is_scalar, is_vector};
use value::{ShaderStage, refusals};

// Whether a code names a binary operator.
pub fn op_known(op: u8) -> bool
    ensures { result ≡ op_known op }
{
    (1 <= op) & (op <= 18)
}

// Whether a code names a unary operator.
pub fn unary_known(op: u8) -> bool
    ensures { result ≡ unary_known op }
{
    (1 <= op) & (op <= 3)
}

// Whether a code names a stage of evaluation.
pub fn stage_known(stage: u8) -> bool
    ensures { result ≡ stage_known stage }
{
    stage <= 2
}

// The code of a stage. The enum is another crate's, so this is no `From`.
pub fn stage_code(stage: ShaderStage) -> u8
    ensures { result ≡ stage_code stage }
{
    match stage {
        ShaderStage::Const => 0,
        ShaderStage::Override => 1,
        ShaderStage::Exec => 2,
    }
}

// The number that refuses a call before its operator is asked: an unknown operator, then an unknown stage, then a malformed operand.
pub fn call_fault(known: bool, stage: u8, formed: bool) -> Result<(), u8>
    ensures { result ≡ call_fault known (stage_known stage) formed }
{
    if !known {
        return Err(refusals::BAD_NODE);
    }
    if !stage_known(stage) {
        return Err(refusals::BAD_STAGE);
    }
    if !formed {
        return Err(refusals::BAD_VALUE);
    }
    Ok(())
}

// Whether an operator takes this pair of shapes, sizes left aside.
pub fn pair_ok(op: u8, a: Shape, b: Shape) -> bool
    ensures { result ≡ pair_ok op a b }
{
    let s = is_scalar(a);
    let t = is_scalar(b);
    let v = is_vector(a);
    let w = is_vector(b);
    let m = is_matrix(a);
    let n = is_matrix(b);
    let arith = (3 <= op) & (op <= 7);
    s & t
        | (3 <= op) & v & w
        | arith & s & w
        | arith & v & t
        | (3 <= op) & (op <= 5) & m & n
        | (op == 5) & (m | n)
}

// The types that two operands convert to: the common type, for both; a shift leaves the left as it is and takes a U32 count. Equal types are told first.
pub fn targets_of(op: u8, x: u8, y: u8) -> Option<(u8, u8)>
    ensures { result ≡ targets_of op x y }
{
    if 17 <= op {
        if types::known(x) & ((y == 4) | types::goes_to(y, 4)) {
            return Some((x, 4));
        }
        return None;
    }
    if types::known(x) & (x == y) {
        return Some((x, x));
    }
    let t = types::common(x, y)?;
    Some((t, t))
}

// Whether a multiplication is a sum of products.
pub fn is_product(op: u8, a: Shape, b: Shape) -> bool
    ensures { result ≡ is_product op a b }
{
    (op == 5) & !is_scalar(a) & !is_scalar(b) & (is_matrix(a) | is_matrix(b))
}

// Whether the inner sizes of a product are equal.
fn inner_ok(a: Shape, b: Shape) -> bool
    ensures { result ≡ inner_ok a b }
{
    (a.cols == 1) & (a.rows == b.rows) | (2 <= a.cols) & (a.cols == b.rows)
}

// Whether two shapes go by component.
fn same_shape(a: Shape, b: Shape) -> bool
    ensures { result ≡ same_shape a b }
{
    is_scalar(a) | is_scalar(b) | (a.cols == b.cols) & (a.rows == b.rows)
}

// Whether the sizes of two shapes fit the operator.
pub fn fits(op: u8, a: Shape, b: Shape) -> bool
    ensures { result ≡ fits_of op a b }
{
    if is_product(op, a, b) {
        return inner_ok(a, b);
    }
    same_shape(a, b)
}

// The number of the refusal where they do not: 01's, as `low::Refused` has it.
pub fn misfit(op: u8, a: Shape, b: Shape) -> u8
    ensures { result ≡ misfit_of op a b }
{
    if is_product(op, a, b) {
        return refusals::BINARY;
    }
    refusals::COMPWISE_BINARY
}

// The shape of an answer by component: that of the operand that is no scalar, where one is.
pub fn result_shape(a: Shape, b: Shape) -> Shape
    ensures { result ≡ result_shape a b }
{
    if is_scalar(a) {
        return b;
    }
    a
}
