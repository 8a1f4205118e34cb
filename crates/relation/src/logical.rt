// `||` and `&&`, which work out both sides, and `!`.
ghost use Rattle.std.specs.Prelude.{◌≡◌};
ghost use Rattle.value.specs.Answer.{answer_of};
ghost use Rattle.relation.specs.Logical.{and_of, not_of, or_of};
ghost use Rattle.value.specs.Pair.{pair_of};

use conversion::common::pair;
use value::{Answer, OperatorError, Pair, Scalar};

// `||` on two operands of one type. It and the next stay two: one over a closure would need more clauses than they have lines.
pub fn or_pair(p: Option<Pair>) -> Answer
    ensures { answer_of result ≡ or_of p }
{
    match p {
        Some(Pair::Bool(x, y)) => Ok(Scalar::Bool(x | y)),
        _ => Err(OperatorError::Binary),
    }
}

// `&&` on two operands of one type.
pub fn and_pair(p: Option<Pair>) -> Answer
    ensures { answer_of result ≡ and_of p }
{
    match p {
        Some(Pair::Bool(x, y)) => Ok(Scalar::Bool(x & y)),
        _ => Err(OperatorError::Binary),
    }
}

// `||` of two operands.
pub fn op_or(l: Scalar, r: Scalar) -> Answer
    ensures { answer_of result ≡ or_of (pair_of l r) }
{
    or_pair(pair(l, r))
}

// `&&` of two operands.
pub fn op_and(l: Scalar, r: Scalar) -> Answer
    ensures { answer_of result ≡ and_of (pair_of l r) }
{
    and_pair(pair(l, r))
}

// `!`, which only a Bool has.
pub fn op_not(s: Scalar) -> Answer
    ensures { answer_of result ≡ not_of s }
{
    match s {
        Scalar::Bool(x) => Ok(Scalar::Bool(!x)),
        _ => Err(OperatorError::Unary),
    }
}
