// Operators on bytes, through the C functions: the value goes into a slot.
ghost use Rattle.std.specs.Prelude.{◌≡◌, ◌≤◌, ◌++◌, length, drop};
ghost use Rattle.booth.specs.Operand.{direct_answer, direct_bytes};
ghost use Rattle.cases.specs.Record.{laid_out, used_in, operand_of_c, asked_by};
ghost use Rattle.cases.specs.Judged.{operator_right};

use crate::{answers, record};

// The bytes of `from` at the start of a buffer that holds them.
fn copy(from: &[u8], to: &mut [u8])
    requires { length from.now ≤ length to.old }
    ensures { to.new ≡ from.now ++ drop (length from.now) to.old }
{
    to[..from.len()].copy_from_slice(from);
}

// An operand as C has it, with zeros after it: type, columns, rows, and the components.
fn laid_out(operand: &[u8]) -> [u8; 131]
    ensures { result ≡ laid_out operand.now }
{
    let mut out = [0u8; 131];
    out[0] = low::byte(operand, 0);
    out[1] = low::byte(operand, 1);
    out[2] = low::byte(operand, 2);
    copy(
        low::part(record::components(operand), 0, 128),
        &mut out[3..131],
    );
    out
}

// How many of those bytes are the operand's: it has as many components as its shape, of any two bytes, or all sixteen.
fn used(operand: &[u8]) -> usize
    ensures { (result ≤ 131) × (result ≡ used_in operand.now) }
{
    let area = (low::byte(operand, 1) as usize) * (low::byte(operand, 2) as usize);
    if area < 16 { 3 + 8 * area } else { 131 }
}

// What the C function answers to a record's operator and operands.
fn asked(case: &[u8], slot: &mut [u8]) -> u64
    ensures { (result ≡ direct_answer slot.old (asked_by operand_of_c case.now))
        × (slot.new ≡ direct_bytes slot.old (asked_by operand_of_c case.now)) }
{
    let op = low::byte(case, 1);
    let stage = low::byte(case, 2);
    let first = low::part(case, 3, 132);
    let left = laid_out(first);
    let m = used(first);
    if low::byte(case, 0) == 1 {
        return booth::wgsl_unary(op, stage, &left[0..m], slot);
    }
    let second = low::part(case, record::second(case), 132);
    let right = laid_out(second);
    let n = used(second);
    booth::wgsl_binary(op, stage, &left[0..m], &right[0..n], slot)
}

// Whether status, detail and every byte of the slot are those of the record. A refusal that carries no operand leaves the slot as it was.
pub fn is_right(case: &[u8]) -> bool
    ensures { result ≡ operator_right case.now }
{
    let before = [0xaau8; 136];
    let mut slot = before;
    let answer = asked(case, &mut slot);
    let said = record::answer(case);
    if !answers(answer, said) {
        return false;
    }
    let status = low::byte(said, 0);
    if (status == 0) | value::carries(status) {
        return record::holds(&slot, said);
    }
    record::same(&slot, &before)
}
