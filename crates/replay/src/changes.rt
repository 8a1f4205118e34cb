// Changes, several in a row over one buffer; after each of them every byte of the buffer is compared.
use cases::answers;

// Where the next change stands in a record, and where the bytes stand that the buffer must hold.
#[derive(Clone, Copy, Debug, PartialEq, Eq)]
struct Place {
    at: usize,
    bytes: usize,
}

// Whether a change answers its number and detail: entry, type, eight bytes of content, number, detail.
fn is_answered(sheet: &[u8], results: &mut [u8], change: &[u8]) -> bool {
    let answer = booth::sheet_change(
        sheet,
        results,
        low::word(change, 0) as u64,
        low::byte(change, 4),
        low::number(low::part(change, 5, 8)),
    );
    answers(answer, low::part(change, 13, 5))
}

// The places after the change at a place: after it stands 1 where the whole buffer follows, of n bytes, and else 0.
fn after(change: &[u8], n: usize, p: Place) -> Place {
    let at = p.at.wrapping_add(19);
    if low::byte(change, 18) == 1 {
        return Place {
            at: at.wrapping_add(n),
            bytes: at,
        };
    }
    Place { at, ..p }
}

// One change, and the places after it, if it answers and leaves the bytes that it must.
fn changed(sheet: &[u8], case: &[u8], results: &mut [u8], p: Place) -> Option<Place> {
    let change = low::part(case, p.at, 19);
    let right = is_answered(sheet, results, change);
    let q = after(change, results.len(), p);
    let same = check::same(results, low::part(case, q.bytes, results.len()));
    (right & same).then_some(q)
}

// Each of the changes that a record has, from a place on.
fn all_changed(sheet: &[u8], case: &[u8], results: &mut [u8], first: Place, count: usize) -> bool {
    let mut p = first;
    for _ in 0..count {
        let Some(next) = changed(sheet, case, results, p) else {
            return false;
        };
        p = next;
    }
    true
}

// The bytes of `from` at the start of a buffer that holds them.
fn put(out: &mut [u8], from: &[u8]) {
    if from.len() <= out.len() {
        out[..from.len()].copy_from_slice(from);
    }
}

// A record: the sheet's length, the sheet, the buffer's length, the buffer, the number of changes, and the changes.
pub(crate) fn is_right(case: &[u8]) -> bool {
    let n = low::word(case, 0) as usize;
    let start = 8 + n;
    let size = low::word(case, 4 + n) as usize;
    let end = start + size;
    if 32768 < size {
        return false;
    }
    let mut results = [0u8; 32768];
    put(&mut results, low::part(case, start, size));
    let first = Place {
        at: end + 2,
        bytes: start,
    };
    let count = low::number(low::part(case, end, 2)) as usize;
    all_changed(
        low::part(case, 4, n),
        case,
        &mut results[0..size],
        first,
        count,
    )
}
