// The product, with which a matrix product begins, and the sum with a product, which it does at each of its further steps.
// F32 and F64 are one over `Float`; an F16 stands apart, for it is worked in F32 and rounded.
ghost use Rattle.std.specs.Prelude.{◌≡◌, ◌<◌, ◌*◌};
ghost use Rattle.rounding.specs.Kind.{of_format};
ghost use Rattle.rounding.specs.Bits.{signed};
ghost use Rattle.scalar.specs.Step.{checked_of, outcome_of, product_added, product_at, step_of, sum_at};

use crate::{Step, binary_step, refusal};
use rounding::{Float, f32_to_half, finite_half, half_to_f32};
use value::refusals;

// In any type: one step, and another with its bits.
pub(crate) fn any_product(stage: u8, ty: u8, sum: u64, l: u64, r: u64) -> Step
    ensures { result ≡ product_added stage ty sum l r }
{
    let (_, p) = binary_step(5, stage, ty, l, r)?;
    binary_step(3, stage, ty, sum, p)
}

// A result's bits; or, where finite results are asked for, the refusal of one that is not finite.
fn checked(asked: bool, finite: bool, number: u8, ty: u8, bits: u64) -> Step
    ensures { result ≡ checked_of asked finite number ty bits }
{
    if asked & !finite {
        return Err(refusal(number));
    }
    Ok((ty, bits))
}

// The product in F32 or F64, of the type's code; whether finite results are asked for is the caller's.
pub(crate) fn float_times<F: Float>(asked: bool, ty: u8, l: u64, r: u64) -> Step
    requires left { l < 2 * signed (of_format F.format) }
    requires right { r < 2 * signed (of_format F.format) }
    ensures { result ≡ product_at (of_format F.format) asked ty l r }
{
    let p = F::of_bits(l).times(F::of_bits(r));
    checked(asked, p.is_finite(), refusals::MUL_OVERFLOW, ty, p.bits())
}

// The product in F16: worked in F32 and rounded; Const and Override, the codes below 2, ask for finite results.
pub(crate) fn half_times(stage: u8, l: u16, r: u16) -> Step
    ensures { result ≡ step_of 5 stage 6 l r }
{
    let p = f32_to_half(half_to_f32(l) * half_to_f32(r));
    let bits = p as u64;
    checked(stage < 2, finite_half(p), refusals::MUL_OVERFLOW, 6, bits)
}

// The sum's bits; or, where finite results are asked for, the refusal of a product that is not finite, and then that of a sum.
fn outcome(asked: bool, product: bool, sum: bool, ty: u8, bits: u64) -> Step
    ensures { result ≡ outcome_of asked product sum ty bits }
{
    if asked & !product {
        return Err(refusal(refusals::MUL_OVERFLOW));
    }
    checked(asked, sum, refusals::ADD_OVERFLOW, ty, bits)
}

// The sum with a product in F32 or F64.
pub(crate) fn float_product<F: Float>(asked: bool, ty: u8, sum: u64, l: u64, r: u64) -> Step
    requires summed { sum < 2 * signed (of_format F.format) }
    requires left { l < 2 * signed (of_format F.format) }
    requires right { r < 2 * signed (of_format F.format) }
    ensures { result ≡ sum_at (of_format F.format) asked ty sum l r }
{
    let p = F::of_bits(l).times(F::of_bits(r));
    let t = F::of_bits(sum).plus(p);
    outcome(asked, p.is_finite(), t.is_finite(), ty, t.bits())
}

// The sum with a product in F16: each of the two worked in F32 and rounded.
pub(crate) fn half_product(stage: u8, sum: u16, l: u16, r: u16) -> Step
    ensures { result ≡ product_added stage 6 sum l r }
{
    let p = f32_to_half(half_to_f32(l) * half_to_f32(r));
    let t = f32_to_half(half_to_f32(sum) + half_to_f32(p));
    let bits = t as u64;
    outcome(stage < 2, finite_half(p), finite_half(t), 6, bits)
}
