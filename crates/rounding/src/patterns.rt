// Which F16s are finite, by their bits.
ghost use Rattle.std.specs.Prelude.{◌≡◌};
ghost use Rattle.rounding.specs.Kind.{half};
ghost use Rattle.rounding.specs.Bits.{of_bits, finite};

// Whether the F16 with the bits b is neither an infinity nor a NaN.
pub fn finite_half(b: u16) -> bool
    ensures { result ≡ finite (of_bits half b) }
{
    b % 0x8000 < 0x7c00
}
