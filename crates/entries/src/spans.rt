// The record at a place, by its head alone: nothing is judged again.
ghost use Rattle.std.specs.Prelude.{◌≡◌};
ghost use Rattle.sheet.specs.Sheet.{read_sheet};
ghost use Rattle.entries.specs.Records.{begins_in, span_of, place_after, setting_of};

use crate::Span;
use sheet::Kind;

// Where the records of a sheet begin.
pub fn begin(s: &[u8]) -> usize
    ensures { result ≡ begins_in (read_sheet s.now) }
{
    0
}

// The record at a place; an empty one where none can be read.
pub fn span_at(s: &[u8], at: usize) -> Span
    ensures { result ≡ span_of s.now at }
{
    let Ok(head) = sheet::read_head(s, at) else {
        return Span {
            stage: 0,
            start: at,
            len: 0,
            next: at,
        };
    };
    Span {
        stage: head.stage,
        start: head.start,
        len: head.len,
        next: head.start + head.len,
    }
}

// The place after k records from a place on.
pub fn place_after(s: &[u8], from: usize, k: usize) -> usize
    ensures { result ≡ place_after s.now from k }
{
    (0..k).fold(from, |at, _| span_at(s, at).next)
}

// The type of the setting whose record is at a place, as its body has it; none where the record is no setting's.
pub fn setting_at(s: &[u8], at: usize) -> Option<u8>
    ensures { result ≡ setting_of s.now at }
{
    let r = span_at(s, at);
    match sheet::kind_of(r.stage) {
        Kind::Setting => Some(low::byte(sheet::body(s, r.start, r.len), 1)),
        Kind::Expression => None,
    }
}
