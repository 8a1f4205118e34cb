// The static library for C: each export is the function of booth under its name, with the same clauses. A slice is a pointer and a length, and no export
// has a `requires`. host/booth.h declares them.
#![tactic(auto)]

ghost use Rattle.std.specs.Prelude.{◌≡◌};
ghost use Rattle.dispatch.specs.Meaning.{unary_meaning, binary_meaning};
ghost use Rattle.sheet.specs.Sheet.{read_sheet, counted_of};
ghost use Rattle.fold.specs.Fresh.{fresh_answer, fresh_bytes};
ghost use Rattle.fold.specs.Change.{change_answer, change_bytes};
ghost use Rattle.booth.specs.Answer.{packed_fold};
ghost use Rattle.booth.specs.Marks.{marks_answer, marks_results, marks_bytes};
ghost use Rattle.booth.specs.Operand.{operand_in, direct_answer, direct_bytes};

// A unary operator on an operand's bytes.
#[unsafe(no_mangle)]
pub extern "C" fn wgsl_unary(op: u8, stage: u8, operand: &[u8], slot: &mut [u8]) -> u64
    ensures { (result ≡ direct_answer slot.old (unary_meaning op stage (operand_in operand.now)))
        × (slot.new ≡ direct_bytes slot.old (unary_meaning op stage (operand_in operand.now))) }
{
    booth::wgsl_unary(op, stage, operand, slot)
}

// A binary operator on the bytes of two operands.
#[unsafe(no_mangle)]
pub extern "C" fn wgsl_binary(op: u8, stage: u8, left: &[u8], right: &[u8], slot: &mut [u8]) -> u64
    ensures { (result ≡ direct_answer slot.old (binary_meaning op stage (operand_in left.now) (operand_in right.now)))
        × (slot.new ≡ direct_bytes slot.old (binary_meaning op stage (operand_in left.now) (operand_in right.now))) }
{
    booth::wgsl_binary(op, stage, left, right, slot)
}

// Checks a sheet.
#[unsafe(no_mangle)]
pub extern "C" fn sheet_check(sheet: &[u8]) -> u64
    ensures { result ≡ packed_fold (counted_of (read_sheet sheet.now)) }
{
    booth::sheet_check(sheet)
}

// Fresh evaluation of a sheet over its results.
#[unsafe(no_mangle)]
pub extern "C" fn sheet_fresh(sheet: &[u8], results: &mut [u8]) -> u64
    ensures { (result ≡ packed_fold (fresh_answer (read_sheet sheet.now) results.old))
        × (results.new ≡ fresh_bytes (read_sheet sheet.now) results.old) }
{
    booth::sheet_fresh(sheet, results)
}

// New content for a setting.
#[unsafe(no_mangle)]
pub extern "C" fn sheet_change(
    sheet: &[u8],
    results: &mut [u8],
    entry: u64,
    ty: u8,
    bits: u64,
) -> u64
    ensures { (result ≡ packed_fold (change_answer (read_sheet sheet.now) results.old entry ty bits))
        × (results.new ≡ change_bytes (read_sheet sheet.now) results.old entry ty bits) }
{
    booth::sheet_change(sheet, results, entry, ty, bits)
}

// New content for a setting, and which entries' slots that worked.
#[unsafe(no_mangle)]
pub extern "C" fn sheet_change_marks(
    sheet: &[u8],
    results: &mut [u8],
    entry: u64,
    ty: u8,
    bits: u64,
    marks: &mut [u8],
) -> u64
    ensures { (result ≡ packed_fold (marks_answer (read_sheet sheet.now) results.old entry ty bits marks.old))
        × (results.new ≡ marks_results (read_sheet sheet.now) results.old entry ty bits marks.old)
        × (marks.new ≡ marks_bytes (read_sheet sheet.now) results.old entry ty bits marks.old) }
{
    booth::sheet_change_marks(sheet, results, entry, ty, bits, marks)
}
