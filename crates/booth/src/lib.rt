// What C calls, by the exports of booth_c. A slice is a pointer and a length. An answer is a number in bits 32 to 39 and its detail in
// bits 0 to 31; the number 0 is success. No function that C calls has a `requires`.
#![tactic(auto)]

mod direct;
mod marks; // marks.rt: the marks of a change

ghost use Rattle.std.specs.Prelude.{◌≡◌};
ghost use Rattle.dispatch.specs.Meaning.{unary_meaning, binary_meaning};
ghost use Rattle.sheet.specs.Sheet.{read_sheet, counted_of};
ghost use Rattle.fold.specs.Fresh.{fresh_answer, fresh_bytes};
ghost use Rattle.fold.specs.Change.{change_answer, change_bytes};
ghost use Rattle.booth.specs.Answer.{packed_answer, packed_fold};
ghost use Rattle.booth.specs.Marks.{marks_answer, marks_results, marks_bytes};
ghost use Rattle.booth.specs.Operand.{operand_in, direct_answer, direct_bytes};

use low::Refused;

// A number and its detail in one.
fn pack(number: u8, detail: u64) -> u64
    ensures { result ≡ packed_answer number detail }
{
    u64::from(number) * 0x1_0000_0000 + detail % 0x1_0000_0000
}

// The answer of a call on a sheet in one number.
fn pack_fold(answer: Result<usize, Refused>) -> u64
    ensures { result ≡ packed_fold answer }
{
    match answer {
        Ok(n) => pack(0, n as u64),
        Err(refused) => pack(refused.number, refused.place as u64),
    }
}

// A unary operator on an operand's bytes: type, columns, rows, and 8 bytes for each component. The slot takes the value, and of the
// refusals those that carry an operand. A scalar goes without a record.
#[unsafe(no_mangle)]
pub extern "C" fn wgsl_unary(op: u8, stage: u8, operand: &[u8], slot: &mut [u8]) -> u64
    ensures { (result ≡ direct_answer slot.old (unary_meaning op stage (operand_in operand.now)))
        × (slot.new ≡ direct_bytes slot.old (unary_meaning op stage (operand_in operand.now))) }
{
    let Some((ty, bits)) = direct::one_in(operand) else {
        return direct::settle(slot, shape::unary(op, stage, direct::operand(operand)));
    };
    direct::settle(slot, shape::unary_scalar(op, stage, ty, bits))
}

// A binary operator on the bytes of two operands. The slot is as in `wgsl_unary`. Two scalars go without records.
#[unsafe(no_mangle)]
pub extern "C" fn wgsl_binary(op: u8, stage: u8, left: &[u8], right: &[u8], slot: &mut [u8]) -> u64
    ensures { (result ≡ direct_answer slot.old (binary_meaning op stage (operand_in left.now) (operand_in right.now)))
        × (slot.new ≡ direct_bytes slot.old (binary_meaning op stage (operand_in left.now) (operand_in right.now))) }
{
    let (Some((lt, l)), Some((rt, r))) = (direct::one_in(left), direct::one_in(right)) else {
        return direct::general(op, stage, left, right, slot);
    };
    direct::settle(slot, shape::binary_scalars(op, stage, lt, l, rt, r))
}

// Checks a sheet. The detail is the number of entries.
#[unsafe(no_mangle)]
pub extern "C" fn sheet_check(sheet: &[u8]) -> u64
    ensures { result ≡ packed_fold (counted_of (read_sheet sheet.now)) }
{
    pack_fold(fold::check(sheet))
}

// Fresh evaluation of a sheet over its results. The detail is the number of entries.
#[unsafe(no_mangle)]
pub extern "C" fn sheet_fresh(sheet: &[u8], results: &mut [u8]) -> u64
    ensures { (result ≡ packed_fold (fresh_answer (read_sheet sheet.now) results.old))
        × (results.new ≡ fresh_bytes (read_sheet sheet.now) results.old) }
{
    pack_fold(fold::evaluate(sheet, results))
}

// New content for a setting. The detail is the number of entries that depend on it.
#[unsafe(no_mangle)]
pub extern "C" fn sheet_change(
    sheet: &[u8],
    results: &mut [u8],
    entry: u64,
    ty: u8,
    bits: u64,
) -> u64
    ensures { (result ≡ packed_fold (change_answer (read_sheet sheet.now) results.old entry ty bits))
        × (results.new ≡ change_bytes (read_sheet sheet.now) results.old entry ty bits) }
{
    pack_fold(fold::change(sheet, results, entry, ty, bits))
}

// New content for a setting, and which entries' slots that worked: `marks`, of 128 bytes, takes 1 for the setting and each entry that
// depends on it, and 0 for every other. The detail is as in `sheet_change`.
#[unsafe(no_mangle)]
pub extern "C" fn sheet_change_marks(
    sheet: &[u8],
    results: &mut [u8],
    entry: u64,
    ty: u8,
    bits: u64,
    marks: &mut [u8],
) -> u64
    ensures { (result ≡ packed_fold (marks_answer (read_sheet sheet.now) results.old entry ty bits marks.old))
        × (results.new ≡ marks_results (read_sheet sheet.now) results.old entry ty bits marks.old)
        × (marks.new ≡ marks_bytes (read_sheet sheet.now) results.old entry ty bits marks.old) }
{
    if marks.len() != 128 {
        return pack_fold(marks::other_size(sheet));
    }
    let mut worked = [false; 128];
    let answer = fold::change_marking(sheet, results, entry, ty, bits, &mut worked);
    if answer.is_ok() {
        marks::put(marks, &worked);
    }
    pack_fold(answer)
}
