// A record: its head, its body as a part of the sheet, and what is judged of both.
ghost use Rattle.std.specs.Prelude.{◌≡◌, ◌+◌, ◌<◌, ◌≤◌, length};
ghost use Rattle.low.specs.Part.{PartOf};
ghost use Rattle.low.specs.Read.{seen_of};
ghost use Rattle.types.specs.Edition.{plain};
ghost use Rattle.sheet.specs.Stage.{kind_of};
ghost use Rattle.sheet.specs.Record.{body_len, read_head, read_setting, read_kind, read_body, read_record, passed_of};

use crate::literals::read_literal;
use crate::node::read_node;
use crate::stage::{counts_as, kind_of, stage_known};
use crate::{Head, Kind, Passed, refused, there};
use low::Refused;
use value::refusals;

// The length of the body of the record at a place.
fn body_len(s: &[u8], at: usize) -> usize
    requires { at + 5 ≤ length s.now }
    ensures { (result ≡ body_len s.now at) × (result < 65536) }
{
    low::get::<2>(s, at + 3) as usize
}

// Judges the five bytes before a body, and that the body is there: its stage byte, where it starts and its length.
pub fn read_head(s: &[u8], at: usize) -> Result<Head, Refused>
    ensures { result ≡ read_head s.now at }
{
    there(s, at, 5)?;
    if !((s[at] == 0xD5) & (s[at + 1] == 0x17)) {
        return Err(refused(refusals::BAD_MARK, at));
    }
    let stage = s[at + 2];
    if !stage_known(stage) {
        return Err(refused(refusals::BAD_STAGE, at + 2));
    }
    let len = body_len(s, at);
    there(s, at + 5, len)?;
    Ok(Head {
        stage,
        start: at + 5,
        len,
    })
}

// A record's body as a part of the sheet: it starts at this place and has this length.
pub fn body(s: &[u8], start: usize, len: usize) -> &[u8]
    ensures { PartOf s.entry start len result }
{
    low::part(s, start, len)
}

// Judges a setting's body: one literal node of a scalar.
fn read_setting(b: &[u8]) -> Result<usize, Refused>
    ensures { result ≡ seen_of (read_setting plain b.now) }
{
    there(b, 0, 1)?;
    if b[0] != 1 {
        return Err(refused(refusals::BAD_NODE, 0));
    }
    read_literal(b, 0, true)
}

// Judges what stands in a body, by its record's stage byte.
fn read_kind(b: &[u8], stages: &[u8], stage: u8) -> Result<usize, Refused>
    ensures { result ≡ seen_of (read_kind plain (kind_of stage) stages.now stage b.now) }
{
    match kind_of(stage) {
        Kind::Setting => read_setting(b),
        Kind::Expression => read_node(b, stages, stage, 0, 32),
    }
}

// Judges a record's body: what its kind asks, and nothing after it.
fn read_body(b: &[u8], stages: &[u8], stage: u8) -> Result<usize, Refused>
    ensures { result ≡ seen_of (read_body plain stages.now stage b.now) }
{
    let n = read_kind(b, stages, stage)?;
    if n < b.len() {
        return Err(refused(refusals::LEFTOVER, n));
    }
    Ok(n)
}

// Judges the record at a place, where the entries before it count as these stages.
pub(crate) fn read_record(s: &[u8], stages: &[u8], at: usize) -> Result<Passed, Refused>
    ensures { result ≡ passed_of (read_record plain stages.now s.now at) }
{
    let head = read_head(s, at)?;
    let b = body(s, head.start, head.len);
    let n = read_body(b, stages, head.stage).map_err(|r| refused(r.number, head.start + r.place))?;
    Ok(Passed {
        stage: counts_as(head.stage),
        next: head.start + n,
    })
}
