// The marked entries of an accepted sheet, worked in rising order, each over the slots as they then stand.
ghost use Rattle.entries.specs.Inside.{Here};
ghost use Rattle.fold.specs.Inside.{Placed, Works, WorksAll};

// Entry k's turn: if it is marked, its slot becomes what it means over the slots as they stand. Answers the place after its record.
fn turn(s: &[u8], results: &mut [u8], marks: &[bool; 128], k: usize, at: usize) -> usize
    requires { Here s.now k at }
    ensures { Works s.now k at marks.now results.old results.new result }
{
    let r = entries::span_at(s, at);
    if !marks[k] {
        return r.next;
    }
    let b = sheet::body(s, r.start, r.len);
    let o = work::entry(b, results, r.stage);
    slot::put(results, k, o);
    r.next
}

// Works out the marked ones of n entries from entry `from` on, whose record is at a place.
pub(crate) fn work_marked(
    s: &[u8],
    results: &mut [u8],
    n: usize,
    from: usize,
    place: usize,
    marks: &[bool; 128],
)
    requires { Placed s.now n from place }
    ensures { WorksAll s.now n from marks.now results.old results.new }
{
    let mut at = place;
    for k in from..n {
        at = turn(s, results, marks, k, at);
    }
}
