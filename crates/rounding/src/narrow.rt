// To a kind. The kind is an argument, so that one text serves every kind.
ghost use Rattle.std.specs.Prelude.{◌≡◌, ◌+◌, ◌-◌, ◌*◌, ◌^◌, ◌<◌, ◌≤◌, ◌≢◌};
ghost use Rattle.std.specs.Float.Ieee as Ieee;
ghost use Rattle.rounding.specs.Kind.{kind, half, single, double, least, round_to, convert, of_integer};
ghost use Rattle.rounding.specs.Bits.{signed, to_bits, of_bits};
ghost use Rattle.rounding.specs.Pack.{pack};

use crate::floats::Float;
use crate::kind::Kind;
use crate::places;

// The bits of the number that has the bits b in a wider kind, rounded once to another. The wider one has `cut` digits more, and its
// fields count from `off` further on. Past the largest value they are the infinity's. Where both kinds have a leading digit, a
// number's bits are the wider kind's less that difference of the fields, rounded by that of the digits. Below, the digits move on
// by a place for each field that is missing, until none is left.
fn narrow_bits(b: u64, from: Kind, to: Kind) -> u64
    requires { (to.digits < from.digits) × (to.digits + to.reach ≤ from.reach)
        × (b < 2 * signed (kind from.digits from.reach)) × (of_bits (kind from.digits from.reach) b ≢ Ieee.nan) }
    ensures { result ≡ to_bits (kind to.digits to.reach) (convert (kind to.digits to.reach) (of_bits (kind from.digits from.reach) b)) }
{
    let cut = from.digits - to.digits;
    let off = from.reach - to.reach;
    let above = from.sign_weight();
    let lead = from.weight();
    let negative = b / above;
    let size = b - negative * above;
    let field = size / lead;
    let sign = negative * to.sign_weight();
    if off + 2 * to.reach < field {
        return sign + to.infinity();
    }
    if off < field {
        return sign + places::round_whole(size - off * lead, cut);
    }
    let places = cut + off + 1 - field;
    if from.digits < places {
        return sign;
    }
    sign + places::round_whole(lead + size % lead, places)
}

// The bits of x rounded once to F16, a NaN as it is kept: told apart first, by a test that no number waits for. Here and below the two kinds
// are what differs, and `narrow_bits` is the one text.
pub fn f64_to_half(x: f64) -> u16
    ensures { result ≡ to_bits half (convert half x) }
{
    if x.is_nan() {
        return 0x7e00;
    }
    narrow_bits(x.bits(), Kind::DOUBLE, Kind::HALF) as u16
}

// The bits of x rounded once to F16, likewise.
pub fn f32_to_half(x: f32) -> u16
    ensures { result ≡ to_bits half (convert half x) }
{
    if x.is_nan() {
        return 0x7e00;
    }
    narrow_bits(x.bits(), Kind::SINGLE, Kind::HALF) as u16
}

// x rounded once to F32, likewise. The library's own `nearest_f64_to_f32_with_nan` takes longer.
pub fn f64_to_f32(x: f64) -> f32
    ensures { result ≡ convert single x }
{
    if x.is_nan() {
        return f32::NAN;
    }
    f32::of_bits(narrow_bits(x.bits(), Kind::DOUBLE, Kind::SINGLE))
}

// The bits of a whole number n rounded to a kind, without the sign; past the largest value they go on past the infinity's. Moved up
// until its highest bit is bit 62, the digits to keep are its highest ones.
fn whole_size(n: u64, k: Kind) -> u64
    requires { (n ≤ 2 ^ 63) × (k.digits ≤ 24) × (k.reach ≤ 127) }
    ensures { result ≡ pack k.digits (n * 2 ^ least (kind k.digits k.reach)) 1 }
{
    if n == 0 {
        return 0;
    }
    let zeros = n.leading_zeros() as u64;
    let top = (n << zeros) / 2;
    let q = places::round_whole(top, 63 - k.digits);
    (62 + k.reach - zeros) * k.weight() + q
}

// The bits of a whole number n, negative where neg, rounded once to a kind.
fn whole_bits(neg: bool, n: u64, k: Kind) -> u64
    requires { (n ≤ 2 ^ 63) × (k.digits ≤ 24) × (k.reach ≤ 127) }
    ensures { result ≡ to_bits (kind k.digits k.reach) (round_to (kind k.digits k.reach) neg n 1) }
{
    let q = whole_size(n, k).min(k.infinity());
    if neg { k.sign_weight() + q } else { q }
}

// The bits of n rounded once to F16.
pub fn i64_to_half(n: i64) -> u16
    ensures { result ≡ to_bits half (of_integer half n) }
{
    whole_bits(n < 0, n.unsigned_abs(), Kind::HALF) as u16
}

// n rounded once to F32. The library's own `nearest_i64_to_f32` takes longer.
pub fn i64_to_f32(n: i64) -> f32
    ensures { result ≡ of_integer single n }
{
    f32::of_bits(whole_bits(n < 0, n.unsigned_abs(), Kind::SINGLE))
}

// n rounded once to F64.
pub fn i64_to_f64(n: i64) -> f64
    ensures { result ≡ of_integer double n }
{
    std::num::nearest_i64_to_f64(n)
}
