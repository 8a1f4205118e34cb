// Conversions of numbers: what is asked, seven zeros, eight bytes in and the eight that must come out.
ghost use Rattle.std.specs.Prelude.{◌≡◌};
ghost use Rattle.cases.specs.Judged.{conversion_of, rounding_right};

use rounding::Float;

// What the crate `rounding` answers: a number in another format, the bits under which one is kept, or whether it is finite. No other
// code asks anything.
fn answer(what: u8, x: u64) -> u64
    ensures { result ≡ conversion_of what x }
{
    let w = x % 0x1_0000_0000;
    let h = (x % 0x1_0000) as u16;
    match what {
        1 => rounding::f64_to_half(f64::of_bits(x)) as u64,
        2 => rounding::f64_to_f32(f64::of_bits(x)).bits(),
        3 => rounding::f32_to_half(f32::of_bits(w)) as u64,
        4 => rounding::half_to_f32(h).bits(),
        5 => rounding::i64_to_half(x.cast_signed()) as u64,
        6 => rounding::i64_to_f32(x.cast_signed()).bits(),
        7 => rounding::i64_to_f64(x.cast_signed()).bits(),
        8 => f32::of_bits(w).bits(),
        9 => f64::of_bits(x).bits(),
        10 => Float::is_finite(f32::of_bits(w)) as u64,
        11 => Float::is_finite(f64::of_bits(x)) as u64,
        12 => rounding::finite_half(h) as u64,
        _ => 0,
    }
}

// Whether a record's answer is the crate's.
pub fn is_right(case: &[u8]) -> bool
    ensures { result ≡ rounding_right case.now }
{
    let what = low::byte(case, 0);
    let found = answer(what, low::number(low::part(case, 8, 8)));
    (1 <= what) & (what <= 12) & (found == low::number(low::part(case, 16, 8)))
}
