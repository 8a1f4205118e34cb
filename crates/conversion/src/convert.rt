// The conversions, a function for each target.
ghost use Rattle.std.specs.Prelude.{◌≡◌};
ghost use Rattle.conversion.specs.Convert.{convert_to, from_float, from_int, int_to_f16, int_to_f32, int_to_float, int_to_i32, int_to_u32, float_to_f16, float_to_f32, stands, when_finite};

use value::pattern::kept_scalar;
use value::{Scalar, type_of};

// A rounded float is a conversion only if it is finite.
fn when_finite(s: Scalar) -> Option<Scalar>
    ensures { result ≡ when_finite s }
{
    value::is_finite(s).then_some(s)
}

// AbstractInt to AbstractFloat.
fn int_to_float(x: i64) -> Option<Scalar>
    ensures { result ≡ int_to_float x }
{
    when_finite(Scalar::AbstractFloat(rounding::i64_to_f64(x)))
}

// AbstractInt to I32, whose range it must lie in.
fn int_to_i32(x: i64) -> Option<Scalar>
    ensures { result ≡ int_to_i32 x }
{
    i32::try_from(x).ok().map(Scalar::I32)
}

// AbstractInt to U32, whose range it must lie in.
fn int_to_u32(x: i64) -> Option<Scalar>
    ensures { result ≡ int_to_u32 x }
{
    u32::try_from(x).ok().map(Scalar::U32)
}

// AbstractInt to F32, rounded once.
fn int_to_f32(x: i64) -> Option<Scalar>
    ensures { result ≡ int_to_f32 x }
{
    when_finite(Scalar::F32(rounding::i64_to_f32(x)))
}

// AbstractInt to F16, rounded once.
fn int_to_f16(x: i64) -> Option<Scalar>
    ensures { result ≡ int_to_f16 x }
{
    when_finite(Scalar::F16(rounding::i64_to_half(x)))
}

// AbstractFloat to F32, rounded once.
fn float_to_f32(x: f64) -> Option<Scalar>
    ensures { result ≡ float_to_f32 x }
{
    when_finite(Scalar::F32(rounding::f64_to_f32(x)))
}

// AbstractFloat to F16, rounded once and not through F32.
fn float_to_f16(x: f64) -> Option<Scalar>
    ensures { result ≡ float_to_f16 x }
{
    when_finite(Scalar::F16(rounding::f64_to_half(x)))
}

// AbstractInt to any type but Bool.
fn from_int(ty: u8, x: i64) -> Option<Scalar>
    ensures { result ≡ from_int ty x }
{
    match ty {
        1 => Some(Scalar::AbstractInt(x)),
        2 => int_to_float(x),
        3 => int_to_i32(x),
        4 => int_to_u32(x),
        5 => int_to_f32(x),
        6 => int_to_f16(x),
        _ => None,
    }
}

// AbstractFloat to F32 or F16.
fn from_float(ty: u8, x: f64) -> Option<Scalar>
    ensures { result ≡ from_float ty x }
{
    match ty {
        2 => Some(Scalar::AbstractFloat(x)),
        5 => float_to_f32(x),
        6 => float_to_f16(x),
        _ => None,
    }
}

// A scalar of the type asked for stands as it is, its NaN as it is kept.
fn stand(ty: u8, s: Scalar) -> Option<Scalar>
    ensures { result ≡ stands ty s }
{
    if type_of(s) == ty {
        return Some(kept_scalar(s));
    }
    None
}

// A scalar as one of the type with that code.
pub fn convert(ty: u8, s: Scalar) -> Option<Scalar>
    ensures { result ≡ convert_to ty s }
{
    match s {
        Scalar::AbstractInt(x) => from_int(ty, x),
        Scalar::AbstractFloat(x) => from_float(ty, x),
        _ => stand(ty, s),
    }
}
