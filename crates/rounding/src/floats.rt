// F32 and F64 as one: what is written over `Float` serves both.
ghost use Rattle.std.specs.Prelude.{◌≡◌, ℕ, ◌*◌, ◌^◌, ◌<◌, is_nan, refl};
ghost use Rattle.std.specs.Float.Ieee as Ieee;
ghost use Rattle.std.specs.Float.Ieee.{Format, binary32, binary64};
ghost use Rattle.rounding.specs.Kind.{of_format};
ghost use Rattle.rounding.specs.Arithmetic.{add, sub, mul, div};
ghost use Rattle.rounding.specs.Bits.{hidden, signed, to_bits, of_bits, finite};

pub trait Float: Copy {
    // The language's own format, and what a value is in its model.
    ghost format: { Format };

    ghost value: { Self → Ieee.Float };

    // The weight of the exponent's field.
    ghost LEAD: { ℕ };

    const LEAD: u64;

    // The weight of the sign.
    ghost SIGN: { ℕ };

    const SIGN: u64;

    fn nan() -> Self
        ensures { value result ≡ Ieee.nan };

    fn is_nan(self) -> bool
        ensures { result ≡ is_nan (value self) };

    // Whether it is neither an infinity nor a NaN.
    fn is_finite(self) -> bool
        ensures { result ≡ finite (value self) };

    // The bits, a NaN as it is kept. They stand for the value.
    fn bits(self) -> u64
        ensures kept { result ≡ to_bits (of_format format) (value self) }
        ensures width { result < 2 * signed (of_format format) }
        ensures back { of_bits (of_format format) result ≡ value self };

    // The value that the bits b stand for, any NaN's pattern for the NaN.
    fn of_bits(b: u64) -> Self
        requires { b < 2 * signed (of_format format) }
        ensures { value result ≡ of_bits (of_format format) b };

    // `+ - * /`, each the exact result rounded once.
    fn plus(self, y: Self) -> Self
        ensures { value result ≡ add (of_format format) (value self) (value y) };

    fn minus(self, y: Self) -> Self
        ensures { value result ≡ sub (of_format format) (value self) (value y) };

    fn times(self, y: Self) -> Self
        ensures { value result ≡ mul (of_format format) (value self) (value y) };

    fn over(self, y: Self) -> Self
        ensures { value result ≡ div (of_format format) (value self) (value y) };

    ghost lead_is: { LEAD ≡ hidden (of_format format) };

    ghost sign_is: { SIGN ≡ signed (of_format format) };
}

impl Float for f32 {
    ghost format = { binary32 };

    ghost value = { λ x. x };

    ghost LEAD = { 2 ^ 23 };

    const LEAD: u64 = 0x80_0000;

    ghost SIGN = { 2 ^ 31 };

    const SIGN: u64 = 0x8000_0000;

    ghost lead_is = { refl };

    ghost sign_is = { refl };

    fn nan() -> f32 {
        f32::NAN
    }

    fn is_nan(self) -> bool {
        f32::is_nan(self)
    }

    fn is_finite(self) -> bool {
        f32::is_finite(self)
    }

    fn bits(self) -> u64 {
        std::num::f32_to_bits_with_nan(self) as u64
    }

    fn of_bits(b: u64) -> f32 {
        std::num::f32_from_bits_with_nan(b as u32)
    }

    fn plus(self, y: f32) -> f32 {
        self + y
    }

    fn minus(self, y: f32) -> f32 {
        self - y
    }

    fn times(self, y: f32) -> f32 {
        self * y
    }

    fn over(self, y: f32) -> f32 {
        self / y
    }
}

impl Float for f64 {
    ghost format = { binary64 };

    ghost value = { λ x. x };

    ghost LEAD = { 2 ^ 52 };

    const LEAD: u64 = 0x10_0000_0000_0000;

    ghost SIGN = { 2 ^ 63 };

    const SIGN: u64 = 0x8000_0000_0000_0000;

    ghost lead_is = { refl };

    ghost sign_is = { refl };

    fn nan() -> f64 {
        f64::NAN
    }

    fn is_nan(self) -> bool {
        f64::is_nan(self)
    }

    fn is_finite(self) -> bool {
        f64::is_finite(self)
    }

    fn bits(self) -> u64 {
        std::num::f64_to_bits_with_nan(self)
    }

    fn of_bits(b: u64) -> f64 {
        std::num::f64_from_bits_with_nan(b)
    }

    fn plus(self, y: f64) -> f64 {
        self + y
    }

    fn minus(self, y: f64) -> f64 {
        self - y
    }

    fn times(self, y: f64) -> f64 {
        self * y
    }

    fn over(self, y: f64) -> f64 {
        self / y
    }
}
