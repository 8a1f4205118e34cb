// One value of seven types, its pattern, and what an operator answers.
#![tactic(auto)]

pub mod pattern;
pub mod refusals;
pub mod said;

ghost use Rattle.std.specs.Prelude.{◌≡◌};
ghost use Rattle.value.specs.Answer.{carries, strict, stage_of};
ghost use Rattle.value.specs.Scalar.{finite_of, type_of};
ghost use Rattle.value.specs.Pattern.{kept_of, proper_of};

// A value with its type; an F16 is its bits.
#[derive(Clone, Copy, Debug, PartialEq)]
pub enum Scalar {
    Bool(bool),
    AbstractInt(i64),
    AbstractFloat(f64),
    I32(i32),
    U32(u32),
    F32(f32),
    F16(u16),
}

// When an expression is worked out.
#[derive(Clone, Copy, Debug, PartialEq, Eq)]
pub enum ShaderStage {
    Const,
    Override,
    Exec,
}

// Why an operator has no value; a shift says the count and the left operand.
#[derive(Clone, Copy, Debug, PartialEq)]
pub enum OperatorError {
    Unary,
    Binary,
    AddOverflow,
    SubOverflow,
    MulOverflow,
    DivByZero,
    RemZeroDiv,
    ShlOverflow(u32, Scalar),
    ShrOverflow(u32, Scalar),
}

// What an operator answers.
pub type Answer = Result<Scalar, OperatorError>;

// Two operands of one type.
#[derive(Clone, Copy, Debug, PartialEq)]
pub enum Pair {
    Bool(bool, bool),
    AbstractInt(i64, i64),
    AbstractFloat(f64, f64),
    I32(i32, i32),
    U32(u32, u32),
    F32(f32, f32),
    F16(u16, u16),
}

// A refusal as a slot has it: 01's number and its detail, and the type and bits of the operand that a shift's carries. Any other's are 0.
#[derive(Clone, Copy, Debug, PartialEq, Eq)]
pub struct Refusal {
    pub bits: u64,
    pub detail: u32,
    pub number: u8,
    pub ty: u8,
}

// Whether a refusal of this number carries an operand.
pub fn carries(number: u8) -> bool
    ensures { result ≡ carries number }
{
    (number == refusals::SHL_OVERFLOW) | (number == refusals::SHR_OVERFLOW)
}

// Const and Override refuse what Exec lets pass.
pub fn strict(stage: ShaderStage) -> bool
    ensures { result ≡ strict stage }
{
    match stage {
        ShaderStage::Const => true,
        ShaderStage::Override => true,
        ShaderStage::Exec => false,
    }
}

// Whether a scalar is no infinity and no NaN.
pub fn is_finite(s: Scalar) -> bool
    ensures { result ≡ finite_of s }
{
    match s {
        Scalar::AbstractFloat(x) => x.is_finite(),
        Scalar::F32(x) => x.is_finite(),
        Scalar::F16(b) => rounding::finite_half(b),
        _ => true,
    }
}

// Whether a pattern is one of its type's.
pub fn proper(ty: u8, bits: u64) -> bool
    ensures { result ≡ proper_of ty bits }
{
    types::known(ty) & (bits <= types::most(ty))
}

// The pattern as it is kept: every NaN of a type as one.
pub fn kept(ty: u8, bits: u64) -> u64
    ensures { result ≡ kept_of ty bits }
{
    match ty {
        2 => if 0x7ff0_0000_0000_0000 < bits % 0x8000_0000_0000_0000 {
            0x7ff8_0000_0000_0000
        } else {
            bits
        },
        5 => if 0x7f80_0000 < bits % 0x8000_0000 {
            0x7fc0_0000
        } else {
            bits
        },
        6 => if 0x7c00 < bits % 0x8000 { 0x7e00 } else { bits },
        _ => bits,
    }
}

// The stage of a code. Every code has one, so this is no `TryFrom`.
pub fn stage_of(code: u8) -> ShaderStage
    ensures { result ≡ stage_of code }
{
    match code {
        0 => ShaderStage::Const,
        1 => ShaderStage::Override,
        _ => ShaderStage::Exec,
    }
}

// The code of a scalar's type.
pub fn type_of(s: Scalar) -> u8
    ensures { result ≡ type_of s }
{
    match s {
        Scalar::Bool(_) => 0,
        Scalar::AbstractInt(_) => 1,
        Scalar::AbstractFloat(_) => 2,
        Scalar::I32(_) => 3,
        Scalar::U32(_) => 4,
        Scalar::F32(_) => 5,
        Scalar::F16(_) => 6,
    }
}
