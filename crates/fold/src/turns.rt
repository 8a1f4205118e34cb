// The change of a setting: its checks, its content, and the turn of each dependent.
ghost use Rattle.std.specs.Prelude.{◌≡◌, ◌*◌, eqb};
ghost use Rattle.slot.specs.Slot.{put};
ghost use Rattle.entries.specs.Inside.{Ready};
ghost use Rattle.fold.specs.Change.{content, content_bytes};
ghost use Rattle.fold.specs.Inside.{Found, Judged, Applied};

use crate::marked::work_marked;
use crate::refused;
use low::Refused;
use operand::Instance;
use value::refusals;

// Whether so many bytes are 136 for each of n entries.
pub(crate) fn sized(size: usize, n: usize) -> bool
    ensures { result ≡ eqb size (136 * n) }
{
    n.checked_mul(136) == Some(size)
}

// The place of the record of entry i of n, if there is such an entry.
fn find(s: &[u8], n: usize, i: u64) -> Option<usize>
    ensures { Found s.now n i result }
{
    if n as u64 <= i {
        return None;
    }
    Some(entries::place_after(s, entries::begin(s), i as usize))
}

// The checks of a change, over results of so many bytes: the place of the setting's record, or the first check that fails.
pub(crate) fn judge(
    s: &[u8],
    size: usize,
    n: usize,
    i: u64,
    ty: u8,
    bits: u64,
) -> Result<usize, Refused>
    ensures { Judged s.now size n i ty bits result }
{
    if !sized(size, n) {
        return Err(refused(refusals::RESULTS_SIZE));
    }
    let at = find(s, n, i).ok_or(refused(refusals::NOT_A_SETTING))?;
    let own = entries::setting_at(s, at).ok_or(refused(refusals::NOT_A_SETTING))?;
    if !value::proper(ty, bits) {
        return Err(refused(refusals::BAD_VALUE));
    }
    if ty != own {
        return Err(refused(refusals::SETTING_TYPE));
    }
    Ok(at)
}

// New content as a value, a NaN as it is kept.
fn content(ty: u8, bits: u64) -> Instance
    ensures { result ≡ content ty bits }
{
    operand::scalar(ty, value::kept(ty, bits))
}

// Puts new content into the slot of setting i. Type and bits come apart, as the public calls take them.
fn put_content(results: &mut [u8], i: usize, ty: u8, bits: u64)
    ensures { results.new ≡ put results.old i (content_bytes ty bits) }
{
    let o = operand::answered(content(ty, bits));
    slot::put(results, i, o);
}

// Setting i, whose record is at a place, gets its content, and each of its dependents is worked. Answers how many there are.
pub(crate) fn apply(
    s: &[u8],
    results: &mut [u8],
    n: usize,
    i: usize,
    place: usize,
    ty: u8,
    bits: u64,
    marks: &mut [bool; 128],
) -> usize
    requires { Ready s.now n i place }
    ensures { Applied s.now n i ty bits results.old results.new marks.new result }
{
    let count = entries::dependents(s, n, i, place, marks);
    put_content(results, i, ty, bits);
    let own = entries::span_at(s, place);
    work_marked(s, results, n, i + 1, own.next, marks);
    count
}
