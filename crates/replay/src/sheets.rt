// Sheets: their check, and fresh evaluation.
use cases::answers;
use value::refusals;

// Whether the check of a sheet answers what a record says. It knows nothing of the size of results, which is judged after it.
fn checks(sheet: &[u8], said: &[u8]) -> bool {
    let answer = booth::sheet_check(sheet);
    if low::byte(said, 0) == refusals::RESULTS_SIZE {
        return answer < 0x1_0000_0000;
    }
    answers(answer, said)
}

// Whether evaluation over a buffer answers what the rest of a record says, and leaves the bytes that it says. A refusal leaves those
// that were there before.
fn evaluates(sheet: &[u8], before: &[u8], results: &mut [u8], rest: &[u8]) -> bool {
    let said = low::part(rest, 5, 5);
    if !(answers(booth::sheet_fresh(sheet, results), said) & checks(sheet, said)) {
        return false;
    }
    if low::byte(said, 0) == 0 {
        return check::same(results, low::part(rest, 10, before.len()));
    }
    check::same(results, before)
}

// A record: the sheet's length, the sheet, the buffer's length, the byte that fills it, number, detail, and where the number is 0 the
// whole buffer afterwards.
pub(crate) fn is_right(case: &[u8]) -> bool {
    let n = low::word(case, 0) as usize;
    let sheet = low::part(case, 4, n);
    let rest = low::part(case, 4 + n, 65536);
    let size = low::word(rest, 0) as usize;
    if 32768 < size {
        return false;
    }
    let before = [low::byte(rest, 4); 32768];
    let mut results = before;
    evaluates(sheet, &before[0..size], &mut results[0..size], rest)
}
