// The remainder of two floats by their bit patterns, in whole numbers. Each step loses nothing, and no call of C's `fmod` is made.
#![tactic(auto)]

ghost use Rattle.std.specs.Prelude.{◌≡◌, ◌+◌, ◌*◌, ◌%◌, ◌^◌, ◌<◌, ◌≤◌};
ghost use Rattle.rounding.specs.Kind.{of_format};
ghost use Rattle.rounding.specs.Arithmetic.{rem};
ghost use Rattle.remainder.specs.Units.{digits_of, places_of, units_of};

use rounding::Float;

// The digits of a magnitude's pattern, where h is the weight of the exponent's field: a number alone, of which one line says all that is asked.
fn digits(a: u64, h: u64) -> u64
    requires { (0 < h) × (h ≤ 2 ^ 52) }
    ensures { result ≡ digits_of h a }
{
    if a < h { a } else { h + a % h }
}

// By how many places they stand above the smallest value.
fn places(a: u64, h: u64) -> u64
    requires { 0 < h }
    ensures { result ≡ places_of h a }
{
    if a < h { 0 } else { a / h - 1 }
}

// Twice c, less n where that goes.
fn doubled(c: u64, n: u64) -> u64
    requires { (c < n) × (n ≤ 2 ^ 53) }
    ensures { (result ≡ (c + c) % n) × (result < n) }
{
    if n <= c + c {
        return c + c - n;
    }
    c + c
}

// m moved up by so many places, less n as often as it goes.
fn reduced(m: u64, n: u64, up: u64) -> u64
    requires { (0 < n) × (n ≤ 2 ^ 53) }
    ensures { (result ≡ m * 2 ^ up % n) × (result < n) }
{
    let mut c = m % n;
    for _ in 0..up {
        c = doubled(c, n);
    }
    c
}

// The pattern of c moved up by e places.
fn packed(c: u64, e: u64, h: u64) -> u64
    requires { (0 < h) × (h ≤ 2 ^ 52) × (c < 2 * h) × (e ≤ 2045) }
    ensures { (units_of h result ≡ c * 2 ^ e) × (result < (e + 2) * h) }
{
    let mut m = c;
    let mut p = e;
    // The end depends on m, so no `for` counts it.
    while 0 < p && m < h {
        m += m;
        p -= 1;
    }
    p * h + m
}

// The pattern of what one magnitude leaves by another.
fn rem_size(a: u64, b: u64, h: u64) -> u64
    requires { (0 < h) × (h ≤ 2 ^ 52) × (0 < b) × (b < 2047 * h) }
    ensures { (units_of h result ≡ units_of h a % units_of h b) × (result < (places_of h b + 2) * h) }
{
    let low = places(a, h);
    let high = places(b, h);
    if low < high {
        return a;
    }
    packed(reduced(digits(a, h), digits(b, h), low - high), high, h)
}

// What x leaves by y: the exact truncated remainder, with the sign of x. A NaN, an infinite x and a zero y give NaN.
pub fn rem<F: Float>(x: F, y: F) -> F
    ensures { F.value result ≡ rem (of_format F.format) (F.value x) (F.value y) }
{
    if !x.is_finite() {
        return F::nan();
    }
    if y.is_nan() {
        return F::nan();
    }
    if !y.is_finite() {
        return x;
    }
    let sign = F::SIGN;
    let w = x.bits();
    let a = w % sign;
    let b = y.bits() % sign;
    if b == 0 {
        return F::nan();
    }
    let r = rem_size(a, b, F::LEAD);
    F::of_bits(w - a + r)
}
