// The direct calls: operands from bytes, and the answer into a slot.
ghost use Rattle.std.specs.Prelude.{◌≡◌, ◌*◌, ◌≤◌};
ghost use Rattle.dispatch.specs.Meaning.{binary_meaning};
ghost use Rattle.booth.specs.Operand.{no_operand, operand_in, call_refused, fills, direct_answer, direct_bytes, scalar_in};

use crate::pack;
use operand::{Instance, Outcome, Shape};
use value::refusals;

// No operand: its type is unknown and it has no shape.
fn no_operand() -> Instance
    ensures { result ≡ no_operand }
{
    Instance {
        ty: 255,
        cols: 0,
        rows: 0,
        comps: [0u64; 16],
    }
}

// The operand in bytes: type, columns, rows, and exactly as many components of 8 bytes as the shape has. Any other bytes are malformed.
pub(crate) fn operand(b: &[u8]) -> Instance
    ensures { result ≡ operand_in b.now }
{
    let ty = low::byte(b, 0);
    let cols = low::byte(b, 1);
    let rows = low::byte(b, 2);
    if !operand::shape_ok(ty, cols, rows) {
        return no_operand();
    }
    if b.len() != 3 + 8 * operand::count(Shape { cols, rows }) {
        return no_operand();
    }
    let comps = low::numbers(low::part(b, 3, 128));
    Instance {
        ty,
        cols,
        rows,
        comps,
    }
}

// The type and pattern of the scalar in bytes: a known type, one column, one row, and 8 bytes. The length is judged first, so that the bytes are there.
pub(crate) fn one_in(b: &[u8]) -> Option<(u8, u64)>
    ensures { result ≡ scalar_in b.now }
{
    if b.len() != 11 {
        return None;
    }
    if !(types::known(b[0]) & (b[1] == 1) & (b[2] == 1)) {
        return None;
    }
    Some((b[0], low::number(low::part(b, 3, 8))))
}

// Whether the call itself is refused: its operator, its stage or an operand. A status is 01's number, as it stands in a slot and leaves to C.
fn call_refused(status: u8) -> bool
    ensures { result ≡ call_refused status }
{
    (status == refusals::BAD_NODE)
        | (status == refusals::BAD_STAGE)
        | (status == refusals::BAD_VALUE)
}

// Whether an outcome goes into the slot: a value, or a refusal that carries an operand.
fn fills(status: u8) -> bool
    ensures { result ≡ fills status }
{
    (status == 0) | value::carries(status)
}

// Answers an outcome, and puts it into a slot where it has a value or an operand. A refusal of the call itself stands before that
// of the slot's size, and that before what the operator answers.
pub(crate) fn settle(slot: &mut [u8], o: Outcome) -> u64
    ensures { (result ≡ direct_answer slot.old o) × (slot.new ≡ direct_bytes slot.old o) }
{
    let answer = pack(o.status, o.detail as u64);
    if call_refused(o.status) {
        return answer;
    }
    if slot.len() != 136 {
        return pack(refusals::RESULTS_SIZE, 0);
    }
    if !fills(o.status) {
        return answer;
    }
    slot::put(slot, 0, o);
    answer
}

// A binary operator on operands of any shape, by way of records.
pub(crate) fn general(op: u8, stage: u8, left: &[u8], right: &[u8], slot: &mut [u8]) -> u64
    ensures { (result ≡ direct_answer slot.old (binary_meaning op stage (operand_in left.now) (operand_in right.now)))
        × (slot.new ≡ direct_bytes slot.old (binary_meaning op stage (operand_in left.now) (operand_in right.now))) }
{
    let l = operand(left);
    let r = operand(right);
    settle(slot, shape::binary(op, stage, l, r))
}
