// The common type of two operands.
ghost use Rattle.std.specs.Prelude.{◌≡◌};
ghost use Rattle.conversion.specs.Convert.{common_of, kept_pair};
ghost use Rattle.value.specs.Pair.{pair_of};

use crate::convert::convert;
use value::pattern::kept_scalar;
use value::{Pair, Scalar, type_of};

// The pair of two scalars as they are, if they have one type.
fn paired(l: Scalar, r: Scalar) -> Option<Pair>
    ensures { result ≡ pair_of l r }
{
    match (l, r) {
        (Scalar::Bool(x), Scalar::Bool(y)) => Some(Pair::Bool(x, y)),
        (Scalar::AbstractInt(x), Scalar::AbstractInt(y)) => Some(Pair::AbstractInt(x, y)),
        (Scalar::AbstractFloat(x), Scalar::AbstractFloat(y)) => Some(Pair::AbstractFloat(x, y)),
        (Scalar::I32(x), Scalar::I32(y)) => Some(Pair::I32(x, y)),
        (Scalar::U32(x), Scalar::U32(y)) => Some(Pair::U32(x, y)),
        (Scalar::F32(x), Scalar::F32(y)) => Some(Pair::F32(x, y)),
        (Scalar::F16(x), Scalar::F16(y)) => Some(Pair::F16(x, y)),
        _ => None,
    }
}

// The pair of two scalars, if they have one type; a NaN as it is kept.
pub fn pair(l: Scalar, r: Scalar) -> Option<Pair>
    ensures { result ≡ kept_pair l r }
{
    paired(kept_scalar(l), kept_scalar(r))
}

// Two operands as a pair of their common type.
pub fn common(l: Scalar, r: Scalar) -> Option<Pair>
    ensures { result ≡ common_of l r }
{
    let ty = types::common(type_of(l), type_of(r))?;
    let x = convert(ty, l)?;
    let y = convert(ty, r)?;
    paired(x, y)
}
