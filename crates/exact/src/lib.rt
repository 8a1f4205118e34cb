// Exact sums, differences and products of 64 bits; products with an own test of overflow, as 01 has them.
#![tactic(auto)]

ghost use Rattle.std.specs.Prelude.{◌≡◌, cond, not, ◌*◌, pos, neg_ℤ, ◌+ℤ◌, ◌-ℤ◌, ◌*ℤ◌};
ghost use Rattle.std.specs.Int.{w64};
ghost use Rattle.integer.specs.Range.{whole_of, in_unsigned};

// x + y, where 64 bits hold it.
pub fn add_i64(x: i64, y: i64) -> Option<i64>
    ensures { result ≡ whole_of (x +ℤ y) }
{
    x.checked_add(y)
}

// x - y, where 64 bits hold it.
pub fn sub_i64(x: i64, y: i64) -> Option<i64>
    ensures { result ≡ whole_of (x -ℤ y) }
{
    x.checked_sub(y)
}

// x times y, where 64 bits hold it: by sign and size.
pub fn mul_i64(x: i64, y: i64) -> Option<i64>
    ensures { result ≡ whole_of (x *ℤ y) }
{
    let a = x.unsigned_abs();
    let b = y.unsigned_abs();
    if product_over(a, b) {
        return None;
    }
    with_sign((x < 0) != (y < 0), a * b)
}

// Whether 64 bits do not hold a times b.
fn product_over(a: u64, b: u64) -> bool
    ensures { result ≡ not (in_unsigned w64 (a * b)) }
{
    if b == 0 {
        return false;
    }
    u64::MAX / b < a
}

// m or -m, where 64 bits hold it.
fn with_sign(neg: bool, m: u64) -> Option<i64>
    ensures { result ≡ whole_of (cond neg (neg_ℤ (pos m)) (pos m)) }
{
    if neg {
        if m == 0 {
            return Some(0);
        }
        let k = m - 1;
        if k < 0x8000_0000_0000_0000 {
            return Some(!(k as i64));
        }
        return None;
    }
    if m < 0x8000_0000_0000_0000 {
        return Some(m as i64);
    }
    None
}
