// From F16 to F32, which holds every F16.
ghost use Rattle.std.specs.Prelude.{◌≡◌, ◌*◌, ◌%◌, ◌<◌, ◌≤◌};
ghost use Rattle.std.specs.Float.Ieee.{odd};
ghost use Rattle.rounding.specs.Kind.{half};
ghost use Rattle.rounding.specs.Bits.{full, hidden, of_bits, signed};

// m smallest values of F16, each 2^-24, negative where neg: exact in F32.
fn small(neg: bool, m: u16) -> f32
    requires { m < hidden half }
    ensures { result ≡ odd 11 neg m 0 24 }
{
    let r = (m as f32) * f32::from_bits(0x3380_0000);
    if neg { -r } else { r }
}

// The value of the F16 with the bits h, a number with a leading digit. In an F32 its digits stand 13 places higher, and its field
// counts from 112 further on.
fn normal(h: u16) -> f32
    requires { (hidden half ≤ h % signed half) × (h % signed half < full half * hidden half) }
    ensures { result ≡ of_bits half h }
{
    let sign = ((h / 0x8000) as u32) * 0x8000_0000;
    let b = ((h % 0x8000) as u32) * 0x2000 + 0x3800_0000;
    f32::from_bits(sign + b)
}

// The value of the F16 with the bits h.
pub fn half_to_f32(h: u16) -> f32
    ensures { result ≡ of_bits half h }
{
    let size = h % 0x8000;
    if (0x400 <= size) & (size < 0x7c00) {
        return normal(h);
    }
    let neg = h >= 0x8000;
    if size < 0x400 {
        return small(neg, size);
    }
    if size > 0x7c00 {
        return f32::NAN;
    }
    if neg {
        return f32::NEG_INFINITY;
    }
    f32::INFINITY
}
