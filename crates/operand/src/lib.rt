// Scalars, vectors and matrices as one flat record: which of them are well formed, and what an operator answers.
#![tactic(auto)]

ghost use Rattle.std.specs.Prelude.{◌≡◌, ◌≤◌};
ghost use Rattle.value.specs.Pattern.{proper_of};
ghost use Rattle.operand.specs.Operand.{shape_ok, in_shape, shape_of, is_scalar, is_vector, is_matrix, component_count, Small, every, component_at, operand_formed, a_scalar};
ghost use Rattle.low.specs.Bytes.{up_to};
ghost use Rattle.operand.specs.Outcome.{refused_with, refused_as, value_of};

use value::Refusal;

// A scalar, vector or matrix: its components, column by column, and its type, columns and rows. The components stand first, at
// an even place, where a copy of them is cheapest.
#[derive(Clone, Copy, Debug, PartialEq, Eq)]
pub struct Instance {
    pub comps: [u64; 16],
    pub ty: u8,
    pub cols: u8,
    pub rows: u8,
}

// An answer: status 0 and a value, or a refusal's number and detail beside zeros; a shift's refusal beside its left operand.
// No `Result`: it is what a slot holds, and a shift's refusal has a value beside it.
#[derive(Clone, Copy, Debug, PartialEq, Eq)]
pub struct Outcome {
    pub value: Instance,
    pub detail: u32,
    pub status: u8,
}

// Columns and rows of an operand.
#[derive(Clone, Copy, Debug, PartialEq, Eq)]
pub struct Shape {
    pub cols: u8,
    pub rows: u8,
}

impl Instance {
    // Its columns and rows.
    pub fn shape(&self) -> Shape
        ensures { result ≡ shape_of self.now }
    {
        Shape {
            cols: self.cols,
            rows: self.rows,
        }
    }
}

// A refusal as an answer.
pub fn refused(status: u8, detail: u32) -> Outcome
    ensures { result ≡ refused_with status detail }
{
    Outcome {
        status,
        detail,
        value: Instance {
            ty: 0,
            cols: 0,
            rows: 0,
            comps: [0u64; 16],
        },
    }
}

// A scalar as an operand; its unused components are 0.
pub fn scalar(ty: u8, bits: u64) -> Instance
    ensures { result ≡ a_scalar ty bits }
{
    let mut comps = [0u64; 16];
    comps[0] = bits;
    Instance {
        ty,
        cols: 1,
        rows: 1,
        comps,
    }
}

// A scalar operator's refusal as an answer: beside the operand that it carries, or zeros.
pub fn refused_as(r: Refusal) -> Outcome
    ensures { result ≡ refused_as r }
{
    if !value::carries(r.number) {
        return refused(r.number, r.detail);
    }
    Outcome {
        status: r.number,
        detail: r.detail,
        value: scalar(r.ty, r.bits),
    }
}

// A value as an answer.
pub fn answered(value: Instance) -> Outcome
    ensures { result ≡ value_of value }
{
    Outcome {
        status: 0,
        detail: 0,
        value,
    }
}

// Whether a type is known and has the shape; only floats have matrices.
pub fn shape_ok(ty: u8, cols: u8, rows: u8) -> bool
    ensures { result ≡ shape_ok ty cols rows }
{
    types::known(ty)
        & (1 <= rows)
        & (rows <= 4)
        & ((cols == 1) | (2 <= cols) & (cols <= 4) & (2 <= rows) & types::is_float(ty))
}

// One column of one row.
pub fn is_scalar(s: Shape) -> bool
    ensures { result ≡ is_scalar s }
{
    (s.cols == 1) & (s.rows == 1)
}

// One column of several rows.
pub fn is_vector(s: Shape) -> bool
    ensures { result ≡ is_vector s }
{
    (s.cols == 1) & (2 <= s.rows)
}

// Several columns.
pub fn is_matrix(s: Shape) -> bool
    ensures { result ≡ is_matrix s }
{
    2 <= s.cols
}

// How many components are in use.
pub fn count(s: Shape) -> usize
    requires { Small s }
    ensures { result ≡ component_count s }
{
    (s.cols as usize) * (s.rows as usize)
}

// Whether the first n components are patterns of the type, whose row is asked for once. Each of the few is asked, without a
// branch, so this is no `all`, which ends at the first that is none.
fn components_ok(ty: u8, xs: &[u64; 16], n: usize) -> bool
    requires { n ≤ 16 }
    ensures { result ≡ every (proper_of ty) (up_to (component_at xs.now) n) }
{
    let known = types::known(ty);
    let most = types::most(ty);
    let mut ok = true;
    for i in 0..n {
        ok &= known & (xs[i] <= most);
    }
    ok
}

// Whether an operand is well formed: a known type and shape, and proper components in use. It is lent, for it is large.
pub fn formed(ty: u8, s: Shape, comps: &[u64; 16]) -> bool
    ensures { result ≡ operand_formed (in_shape ty s comps.now) }
{
    if !shape_ok(ty, s.cols, s.rows) {
        return false;
    }
    components_ok(ty, comps, count(s))
}
