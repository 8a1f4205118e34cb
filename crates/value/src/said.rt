// What an answer says by codes: the number of its refusal, the detail, and the scalar that it has or carries.
ghost use Rattle.std.specs.Prelude.{◌≡◌};
ghost use Rattle.value.specs.Answer.{answer_of, detail_of, number_of, refused_by, scalar_in};

use crate::{Answer, OperatorError, Scalar, refusals};

impl OperatorError {
    // The number of a refusal.
    pub fn number(self) -> u8
        ensures { result ≡ number_of (refused_by self) }
    {
        match self {
            OperatorError::Unary => refusals::UNARY,
            OperatorError::Binary => refusals::BINARY,
            OperatorError::AddOverflow => refusals::ADD_OVERFLOW,
            OperatorError::SubOverflow => refusals::SUB_OVERFLOW,
            OperatorError::MulOverflow => refusals::MUL_OVERFLOW,
            OperatorError::DivByZero => refusals::DIV_BY_ZERO,
            OperatorError::RemZeroDiv => refusals::REM_ZERO_DIV,
            OperatorError::ShlOverflow(_, _) => refusals::SHL_OVERFLOW,
            OperatorError::ShrOverflow(_, _) => refusals::SHR_OVERFLOW,
        }
    }

    // The detail of a refusal: a shift's count, and else 0.
    pub fn detail(self) -> u32
        ensures { result ≡ detail_of (refused_by self) }
    {
        match self {
            OperatorError::ShlOverflow(n, _) => n,
            OperatorError::ShrOverflow(n, _) => n,
            _ => 0,
        }
    }
}

// The number of an answer's refusal; 0 for a value.
pub fn number(a: Answer) -> u8
    ensures { result ≡ number_of (answer_of a) }
{
    match a {
        Ok(_) => 0,
        Err(e) => e.number(),
    }
}

// The detail of an answer's refusal; 0 for a value.
pub fn detail(a: Answer) -> u32
    ensures { result ≡ detail_of (answer_of a) }
{
    match a {
        Ok(_) => 0,
        Err(e) => e.detail(),
    }
}

// The value, or the operand that a shift's refusal carries; of any other refusal the false, whose type and bits are 0.
pub fn scalar_in(a: Answer) -> Scalar
    ensures { result ≡ scalar_in (answer_of a) }
{
    match a {
        Ok(s) => s,
        Err(OperatorError::ShlOverflow(_, l)) => l,
        Err(OperatorError::ShrOverflow(_, l)) => l,
        Err(_) => Scalar::Bool(false),
    }
}
