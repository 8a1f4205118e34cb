// Which entries depend on an entry: one pass over the records after it, for each reference names an earlier entry.
ghost use Rattle.entries.specs.Inside.{Ready, Dependents};

use crate::spans::span_at;

// Marks entry i of n, whose record is at a place, and its dependents, and no other. Answers the number of dependents.
pub fn dependents(s: &[u8], n: usize, i: usize, place: usize, marks: &mut [bool; 128]) -> usize
    requires { Ready s.now n i place }
    ensures { Dependents s.now n i marks.new result }
{
    *marks = [false; 128];
    marks[i] = true;
    let mut at = span_at(s, place).next;
    let mut count: usize = 0;
    for k in i + 1..n {
        let r = span_at(s, at);
        let named = sheet::names_marked(sheet::body(s, r.start, r.len), r.stage, marks);
        marks[k] = named;
        count += usize::from(named);
        at = r.next;
    }
    count
}
