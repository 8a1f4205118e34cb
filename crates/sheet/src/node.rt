// The nodes of a body: a node reads its operands, and they read their nodes.
ghost use Rattle.std.specs.Prelude.{◌≡◌};
ghost use Rattle.low.specs.Read.{seen_of};
ghost use Rattle.types.specs.Edition.{plain};
ghost use Rattle.sheet.specs.Node.{operator_known, read_reference, read_operator, read_node};

use crate::literals::read_literal;
use crate::{refused, there};
use low::Refused;
use value::refusals;

// Whether an operator code is known, before one operand or two.
fn known_operator(two: bool, op: u8) -> bool
    ensures { result ≡ operator_known two op }
{
    (1 <= op) & ((op <= 3) | two & (op <= 18))
}

// Judges the reference at a place: it names an earlier entry, whose stage is not above the own one.
fn read_reference(b: &[u8], stages: &[u8], own: u8, at: usize) -> Result<usize, Refused>
    ensures { result ≡ seen_of (read_reference stages.now own b.now at) }
{
    there(b, at, 2)?;
    let k = b[at + 1] as usize;
    if stages.len() <= k {
        return Err(refused(refusals::BAD_REF, at));
    }
    if own < stages[k] {
        return Err(refused(refusals::BAD_STAGE, at));
    }
    Ok(at + 2)
}

// Judges the node at a place and all below it, where so many levels are left.
#[cycle(read_node_read_operands)]
pub(crate) fn read_node(
    b: &[u8],
    stages: &[u8],
    own: u8,
    at: usize,
    levels: usize,
) -> Result<usize, Refused>
    ensures { result ≡ seen_of (read_node plain levels stages.now own b.now at) }
{
    if levels == 0 {
        return Err(refused(refusals::TOO_DEEP, at));
    }
    there(b, at, 1)?;
    let tag = b[at];
    match tag {
        1 => Ok(read_literal(b, at, false)?),
        2 => read_reference(b, stages, own, at),
        3 => read_operands(b, stages, own, at, levels - 1, false),
        4 => read_operands(b, stages, own, at, levels - 1, true),
        _ => Err(refused(refusals::BAD_NODE, at)),
    }
}

// Judges the operator of the node at a place and its operands, left before right. It is part of its caller by the attribute: as a call of its own
// it moves each answer once more. Here and above an answer is taken apart by `?` and made anew: a Result that is handed on as it stands is moved
// with the bytes that its Ok does not use, and a check took twice the time.
#[cycle(read_node_read_operands)]
#[inline(always)]
fn read_operands(
    b: &[u8],
    stages: &[u8],
    own: u8,
    at: usize,
    levels: usize,
    two: bool,
) -> Result<usize, Refused>
    ensures { result ≡ seen_of (read_operator two (read_node plain levels stages.now own b.now) b.now at) }
{
    there(b, at, 2)?;
    if !known_operator(two, b[at + 1]) {
        return Err(refused(refusals::BAD_NODE, at));
    }
    let next = read_node(b, stages, own, at + 2, levels)?;
    if two {
        return Ok(read_node(b, stages, own, next, levels)?);
    }
    Ok(next)
}
