// Operators on operands of sixteen components. Those beyond the shape's are to be ignored; an operand of C's has no place for them.
ghost use Rattle.std.specs.Prelude.{◌≡◌};
ghost use Rattle.cases.specs.Record.{instance_in, asked_by};
ghost use Rattle.cases.specs.Judged.{shape_right};

use crate::record;
use operand::Outcome;

// What the direct call answers to a record's operator and operands.
fn asked(case: &[u8]) -> Outcome
    ensures { result ≡ asked_by instance_in case.now }
{
    let op = low::byte(case, 1);
    let stage = low::byte(case, 2);
    let left = record::instance(low::part(case, 3, 132));
    if low::byte(case, 0) == 1 {
        return shape::unary(op, stage, left);
    }
    let right = record::instance(low::part(case, record::second(case), 132));
    shape::binary(op, stage, left, right)
}

// Whether the outcome, as a slot, is the record's.
pub fn is_right(case: &[u8]) -> bool
    ensures { result ≡ shape_right case.now }
{
    let mut slot = [0u8; 136];
    slot::put(&mut slot, 0, asked(case));
    record::holds(&slot, record::answer(case))
}
