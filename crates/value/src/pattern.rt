// The bits of a scalar, and the scalar of a type and bits, or two of them.
ghost use Rattle.std.specs.Prelude.{◌≡◌};
ghost use Rattle.value.specs.Pair.{both_of};
ghost use Rattle.value.specs.Pattern.{kept_of, Narrow};
ghost use Rattle.value.specs.Scalar.{bits_of, kept_scalar, scalar_at, scalar_of};

use crate::{Pair, Scalar};
use rounding::Float;

// The pattern of an F16 as it is kept: the row of `kept` for 16 bits alone, with no type to ask for.
fn kept_half(bits: u16) -> u16
    ensures { result ≡ kept_of 6 bits }
{
    if 0x7c00 < bits % 0x8000 {
        return 0x7e00;
    }
    bits
}

// A scalar with the bits of a NaN as they are kept; no type but F16 is given by its bits.
pub fn kept_scalar(s: Scalar) -> Scalar
    ensures { result ≡ kept_scalar s }
{
    match s {
        Scalar::F16(bits) => Scalar::F16(kept_half(bits)),
        _ => s,
    }
}

// The bits of a scalar.
pub fn bits_of(s: Scalar) -> u64
    ensures { result ≡ bits_of s }
{
    match s {
        Scalar::Bool(x) => if x { 1 } else { 0 },
        Scalar::AbstractInt(x) => x.cast_unsigned(),
        Scalar::AbstractFloat(x) => x.bits(),
        Scalar::I32(x) => u64::from(x.cast_unsigned()),
        Scalar::U32(x) => u64::from(x),
        Scalar::F32(x) => x.bits(),
        Scalar::F16(x) => u64::from(kept_half(x)),
    }
}

// The scalar of a type and a pattern that is not too wide for it.
fn scalar_at(ty: u8, bits: u64) -> Option<Scalar>
    requires { Narrow ty bits }
    ensures { result ≡ scalar_at ty bits }
{
    match ty {
        0 => Some(Scalar::Bool(bits == 1)),
        1 => Some(Scalar::AbstractInt(bits.cast_signed())),
        2 => Some(Scalar::AbstractFloat(f64::of_bits(bits))),
        3 => Some(Scalar::I32((bits as u32).cast_signed())),
        4 => Some(Scalar::U32(bits as u32)),
        5 => Some(Scalar::F32(f32::of_bits(bits))),
        6 => Some(Scalar::F16(kept_half(bits as u16))),
        _ => None,
    }
}

// The scalar of a type and a pattern, if the pattern is proper.
pub fn scalar_of(ty: u8, bits: u64) -> Option<Scalar>
    ensures { result ≡ scalar_of ty bits }
{
    if crate::proper(ty, bits) {
        return scalar_at(ty, bits);
    }
    None
}

// The pair of two patterns that are not too wide for a type. By type as `scalar_at`: a pair made of two scalars would ask for their types again.
fn pair_at(ty: u8, l: u64, r: u64) -> Option<Pair>
    requires narrow { Narrow ty l }
    requires narrow_2 { Narrow ty r }
    ensures { result ≡ both_of (scalar_at ty l) (scalar_at ty r) }
{
    match ty {
        0 => Some(Pair::Bool(l == 1, r == 1)),
        1 => Some(Pair::AbstractInt(l.cast_signed(), r.cast_signed())),
        2 => Some(Pair::AbstractFloat(f64::of_bits(l), f64::of_bits(r))),
        3 => Some(Pair::I32((l as u32).cast_signed(), (r as u32).cast_signed())),
        4 => Some(Pair::U32(l as u32, r as u32)),
        5 => Some(Pair::F32(f32::of_bits(l), f32::of_bits(r))),
        6 => Some(Pair::F16(kept_half(l as u16), kept_half(r as u16))),
        _ => None,
    }
}

// The pair of two patterns of one type, if both are proper; the type's row is asked for once, and a code that names no type has no pair.
pub fn pair_of(ty: u8, l: u64, r: u64) -> Option<Pair>
    ensures { result ≡ both_of (scalar_of ty l) (scalar_of ty r) }
{
    let most = types::most(ty);
    if (l <= most) & (r <= most) {
        return pair_at(ty, l, r);
    }
    None
}
