// A sheet's results: fresh evaluation, and the change of one setting.
#![tactic(auto)]

mod marked; // marked.rt: the marked entries of an accepted sheet, worked in rising order
mod turns; // turns.rt: the checks of a change, and the change

ghost use Rattle.std.specs.Prelude.{◌≡◌};
ghost use Rattle.sheet.specs.Sheet.{read_sheet, counted_of};
ghost use Rattle.fold.specs.Fresh.{fresh_answer, fresh_bytes};
ghost use Rattle.fold.specs.Change.{change_answer, change_bytes, change_marks};

use low::Refused;
use value::refusals;

// Checks a sheet: how many entries it has, or the first check that fails.
pub fn check(sheet: &[u8]) -> Result<usize, Refused>
    ensures { result ≡ counted_of (read_sheet sheet.now) }
{
    sheet::check(sheet)
}

// A refusal of what is lent beside the sheet: it has no place in it.
fn refused(number: u8) -> Refused
    ensures { result ≡ record { number = number; place = 0 } }
{
    Refused { number, place: 0 }
}

// Fresh evaluation: fills every slot of the results in order, whatever they held. Answers the number of entries.
pub fn evaluate(sheet: &[u8], results: &mut [u8]) -> Result<usize, Refused>
    ensures { (result ≡ fresh_answer (read_sheet sheet.now) results.old)
        × (results.new ≡ fresh_bytes (read_sheet sheet.now) results.old) }
{
    let n = sheet::check(sheet)?;
    if !turns::sized(results.len(), n) {
        return Err(refused(refusals::RESULTS_SIZE));
    }
    let marks = [true; 128];
    marked::work_marked(sheet, results, n, 0, entries::begin(sheet), &marks);
    Ok(n)
}

// Gives a setting new content and works its dependents, as `change` does, and marks the entries whose slots were worked.
pub fn change_marking(
    sheet: &[u8],
    results: &mut [u8],
    entry: u64,
    ty: u8,
    bits: u64,
    marks: &mut [bool; 128],
) -> Result<usize, Refused>
    ensures { (result ≡ change_answer (read_sheet sheet.now) results.old entry ty bits)
        × (results.new ≡ change_bytes (read_sheet sheet.now) results.old entry ty bits)
        × (marks.new ≡ change_marks (read_sheet sheet.now) results.old entry ty bits marks.old) }
{
    let n = sheet::check(sheet)?;
    let at = turns::judge(sheet, results.len(), n, entry, ty, bits)?;
    Ok(turns::apply(sheet, results, n, entry as usize, at, ty, bits, marks))
}

// Gives a setting new content and works out each of its dependents over the slots as they stand. Answers how many there are.
pub fn change(
    sheet: &[u8],
    results: &mut [u8],
    entry: u64,
    ty: u8,
    bits: u64,
) -> Result<usize, Refused>
    ensures { (result ≡ change_answer (read_sheet sheet.now) results.old entry ty bits)
        × (results.new ≡ change_bytes (read_sheet sheet.now) results.old entry ty bits) }
{
    let mut marks = [false; 128];
    change_marking(sheet, results, entry, ty, bits, &mut marks)
}
