// A record of an operator: kind (1 unary, 2 binary), operator, stage, one or two operands, then status, detail and value. An operand is
// type, columns, rows, how many components follow, and those, of eight bytes each.
ghost use Rattle.std.specs.Prelude.{◌≡◌, ◌≤◌};
ghost use Rattle.slot.specs.Slot.{bytes_of};
ghost use Rattle.cases.specs.Record.{components_in, instance_in, second_place, answer_in, outcome_in};
ghost use Rattle.cases.specs.Judged.{same};

use operand::{Instance, Outcome};

// The place after the first operand.
pub(crate) fn second(case: &[u8]) -> usize
    ensures { (result ≡ second_place case.now) × (result ≤ 2047) }
{
    7 + 8 * low::byte(case, 6) as usize
}

// An operand's components, as bytes.
pub(crate) fn components(operand: &[u8]) -> &[u8]
    ensures { result.now ≡ components_in operand.now }
{
    low::part(operand, 4, 8 * low::byte(operand, 3) as usize)
}

// An operand, with zeros after the components that it was given.
pub(crate) fn instance(operand: &[u8]) -> Instance
    ensures { result ≡ instance_in operand.now }
{
    let comps = low::numbers(components(operand));
    Instance {
        ty: low::byte(operand, 0),
        cols: low::byte(operand, 1),
        rows: low::byte(operand, 2),
        comps,
    }
}

// What must come out: status, detail and value.
pub(crate) fn answer(case: &[u8]) -> &[u8]
    ensures { result.now ≡ answer_in case.now }
{
    let at = second(case);
    if low::byte(case, 0) == 1 {
        return low::part(case, at, 137);
    }
    low::part(case, at + 4 + 8 * low::byte(case, at + 3) as usize, 137)
}

// The outcome that an answer says.
fn outcome(answer: &[u8]) -> Outcome
    ensures { result ≡ outcome_in answer.now }
{
    let detail = low::word(answer, 1);
    let value = instance(low::part(answer, 5, 132));
    Outcome {
        status: low::byte(answer, 0),
        detail,
        value,
    }
}

// Whether two strings are the same.
pub(crate) fn same(a: &[u8], b: &[u8]) -> bool
    ensures { result ≡ same a.now b.now }
{
    check::same(a, b)
}

// Whether a slot is the one that an answer makes: status, type, columns, rows, detail, and components with zeros after them.
pub(crate) fn holds(slot: &[u8], answer: &[u8]) -> bool
    ensures { result ≡ same slot.now (bytes_of (outcome_in answer.now)) }
{
    let mut said = [0u8; 136];
    slot::put(&mut said, 0, outcome(answer));
    same(slot, &said)
}
