// A literal node: type, columns, rows and components.
ghost use Rattle.std.specs.Prelude.{◌≡◌, false, ◌++◌, ◌+◌, ◌*◌, ◌-◌, ◌<◌, ◌≤◌, length, replicate};
ghost use Rattle.low.specs.Read.{seen_of};
ghost use Rattle.types.specs.Edition.{plain};
ghost use Rattle.sheet.specs.Node.{literal_head, all_proper, components, literal_ok, read_literal, literal_in};
ghost use Rattle.sheet.specs.Accepted.{LiteralAt};

use crate::{Literal, refused, there};
use low::{Refused, get};
use operand::Instance;
use value::refusals;

// The three bytes after a literal's tag: its type, columns and rows.
#[derive(Clone, Copy, Debug, PartialEq, Eq)]
pub(crate) struct LiteralHead {
    ty: u8,
    cols: u8,
    rows: u8,
}

// How many components a shape has, of any two bytes; `operand::count` asks for a shape that was judged.
pub(crate) fn area(cols: u8, rows: u8) -> usize
    ensures { (result ≡ cols * rows) × (result < 65536) }
{
    (cols as usize) * (rows as usize)
}

// Whether a literal may have this type and shape; a setting's are fewer.
fn literal_ok(setting: bool, h: LiteralHead) -> bool
    ensures { result ≡ literal_ok plain setting h }
{
    operand::shape_ok(h.ty, h.cols, h.rows)
        & (!setting | types::concrete(h.ty) & (h.cols == 1) & (h.rows == 1))
}

// The type, columns and rows of the literal at a place.
fn literal_head(b: &[u8], at: usize) -> LiteralHead
    requires { at + 4 ≤ length b.now }
    ensures { result ≡ literal_head b.now at }
{
    LiteralHead {
        ty: b[at + 1],
        cols: b[at + 2],
        rows: b[at + 3],
    }
}

// Whether the n components from a place on are all patterns of the type.
fn all_proper(b: &[u8], at: usize, n: usize, ty: u8) -> bool
    requires { at + 8 * n ≤ length b.now }
    ensures { result ≡ all_proper ty n b.now at }
{
    (0..n).all(|i| value::proper(ty, get::<8>(b, at + 8 * i)))
}

// Judges the literal node at a place, as a setting's or as any.
pub(crate) fn read_literal(b: &[u8], at: usize, setting: bool) -> Result<usize, Refused>
    ensures { result ≡ seen_of (read_literal plain setting b.now at) }
{
    there(b, at, 4)?;
    let h = literal_head(b, at);
    if !literal_ok(setting, h) {
        return Err(refused(refusals::BAD_VALUE, at));
    }
    let n = area(h.cols, h.rows);
    there(b, at + 4, 8 * n)?;
    if !all_proper(b, at + 4, n, h.ty) {
        return Err(refused(refusals::BAD_VALUE, at));
    }
    Ok(at + 4 + 8 * n)
}

// The n components from a place on, a NaN as it is kept, and 0 for those not in use.
fn load(b: &[u8], at: usize, n: usize, ty: u8) -> [u64; 16]
    requires { (n ≤ 16) × (at + 8 * n ≤ length b.now) }
    ensures { result ≡ components ty n b.now at ++ replicate (16 - n) 0 }
{
    let mut out = [0u64; 16];
    for i in 0..n {
        out[i] = value::kept(ty, get::<8>(b, at + 8 * i));
    }
    out
}

// The value of the literal at a place and the place after it. It was accepted, so nothing is judged again.
pub fn literal_at(b: &[u8], at: usize) -> Literal
    requires { LiteralAt plain b.now at }
    ensures { result ≡ literal_in (read_literal plain false b.now at) }
{
    let h = literal_head(b, at);
    let n = area(h.cols, h.rows);
    let comps = load(b, at + 4, n, h.ty);
    Literal {
        value: Instance {
            ty: h.ty,
            cols: h.cols,
            rows: h.rows,
            comps,
        },
        next: at + 4 + 8 * n,
    }
}
