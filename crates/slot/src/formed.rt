// Which slots are well formed.
ghost use Rattle.std.specs.Prelude.{◌≡◌, ◌*◌, ◌<◌};
ghost use Rattle.types.specs.Edition.{plain};
ghost use Rattle.slot.specs.Slot.{component_formed, components_formed, value_formed, blank, integer_formed, beside_formed, detail_formed, formed};

use operand::{Instance, Outcome};
use value::refusals;

// How many components a shape has; any two bytes are one here, so it is not `operand::count`, which asks for a shape that was judged.
fn area(cols: u8, rows: u8) -> usize
    ensures { result ≡ cols * rows }
{
    (cols as usize) * (rows as usize)
}

// Whether component i may stand there, where the first n are in use.
fn component_formed(ty: u8, n: usize, xs: [u64; 16], i: usize) -> bool
    requires { i < 16 }
    ensures { result ≡ component_formed ty n xs i }
{
    let x = xs[i];
    if i < n {
        return value::proper(ty, x) & (value::kept(ty, x) == x);
    }
    x == 0
}

// Whether each component may stand there, where the first n are in use.
fn components_formed(ty: u8, n: usize, xs: [u64; 16]) -> bool
    ensures { result ≡ components_formed ty n xs }
{
    let mut good = true;
    for i in 0..16 {
        good = good & component_formed(ty, n, xs, i);
    }
    good
}

// Whether a value may stand in a slot of status 0.
fn value_formed(v: Instance) -> bool
    ensures { result ≡ value_formed plain v }
{
    operand::shape_ok(v.ty, v.cols, v.rows) & components_formed(v.ty, area(v.cols, v.rows), v.comps)
}

// Whether a value has type, columns, rows and components 0.
fn blank(v: Instance) -> bool
    ensures { result ≡ blank v }
{
    (v.ty == 0) & (v.cols == 0) & (v.rows == 0) & components_formed(0, 0, v.comps)
}

// Whether a value is a scalar of an integer type, as a shift's refusal carries it.
fn integer_formed(v: Instance) -> bool
    ensures { result ≡ integer_formed plain v }
{
    types::is_integer(v.ty) & (v.cols == 1) & (v.rows == 1) & value_formed(v)
}

// Whether a value may stand beside a refusal of this number.
fn beside_formed(number: u8, v: Instance) -> bool
    ensures { result ≡ beside_formed plain number v }
{
    if value::carries(number) {
        return integer_formed(v);
    }
    blank(v)
}

// Whether a refusal may have this detail.
fn detail_formed(number: u8, detail: u32) -> bool
    ensures { result ≡ detail_formed number detail }
{
    (detail == 0) | value::carries(number) | (number == refusals::FROM_ENTRY) & (detail < 128)
}

// Whether a slot that says this is well formed. Its components are gone through once.
pub(crate) fn formed(o: Outcome) -> bool
    ensures { result ≡ formed plain o }
{
    if o.status == 0 {
        return (o.detail == 0) & value_formed(o.value);
    }
    (o.status <= refusals::FROM_ENTRY)
        & detail_formed(o.status, o.detail)
        & beside_formed(o.status, o.value)
}
