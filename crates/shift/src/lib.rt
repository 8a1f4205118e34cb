// Shifts: to the left exactly, or wrapping around; to the right, rounded down. The functions of a name share no rule: 32 bits refuse a far count or
// take it modulo the width and 64 bits take any, and an unsigned number has another limit.
#![tactic(auto)]

ghost use Rattle.std.specs.Prelude.{◌≡◌, ◌*◌, ◌^◌, pos, ◌*ℤ◌};
ghost use Rattle.std.specs.Int.Signed.{shr_z};
ghost use Rattle.std.specs.Int.{w32, w64};
ghost use Rattle.integer.specs.Wrap.{wrap_s};
ghost use Rattle.integer.specs.Range.{pick, whole_of};
ghost use Rattle.shift.specs.Shift.{shl_over, shl_over_u, shl_wrapping, shl_wrapping_u, shr_modulo, shr_modulo_u};

// The width of I32 and of U32, and that of AbstractInt.
const WIDTH: u32 = 32;

const WIDE: u32 = 64;

// x times 2^n, where n is below the width and the product in the type: the top n + 1 bits are alike. `checked_shl` asks for the count alone.
pub fn shl_i32(x: i32, n: u32) -> Option<i32>
    ensures { result ≡ pick (shl_over w32 x n) None (Some (x *ℤ pos (2 ^ n))) }
{
    if WIDTH <= n {
        return None;
    }
    let top = x >> (WIDTH - 1 - n);
    if top == 0 || top == -1 {
        Some(x << n)
    } else {
        None
    }
}

// x times 2^n, where n is below the width and the product in the type. `checked_mul` by 2^n would divide.
pub fn shl_u32(x: u32, n: u32) -> Option<u32>
    ensures { result ≡ pick (shl_over_u w32 x n) None (Some (x * 2 ^ n)) }
{
    if WIDTH <= n {
        return None;
    }
    if u32::MAX >> n < x {
        return None;
    }
    Some(x << n)
}

// x times 2^n for any n, where the product is in the type: the top n + 1 bits are alike.
pub fn shl_i64(x: i64, n: u32) -> Option<i64>
    ensures { result ≡ whole_of (x *ℤ pos (2 ^ n)) }
{
    if x == 0 {
        return Some(0);
    }
    if WIDE <= n {
        return None;
    }
    let top = x >> (WIDE - 1 - n);
    if top == 0 || top == -1 {
        Some(x << n)
    } else {
        None
    }
}

// x times 2^n, n taken modulo the width, wrapping around.
pub fn shl_wrapping_i32(x: i32, n: u32) -> i32
    ensures { result ≡ shl_wrapping w32 x n }
{
    x.wrapping_shl(n)
}

// x times 2^n, n taken modulo the width, wrapping around.
pub fn shl_wrapping_u32(x: u32, n: u32) -> u32
    ensures { result ≡ shl_wrapping_u w32 x n }
{
    x.wrapping_shl(n)
}

// x times 2^n for any n, wrapping around.
pub fn shl_wrapping_i64(x: i64, n: u32) -> i64
    ensures { result ≡ wrap_s w64 (x *ℤ pos (2 ^ n)) }
{
    x.checked_shl(n).unwrap_or(0)
}

// The floor of x over 2^n, n taken modulo the width.
pub fn shr_i32(x: i32, n: u32) -> i32
    ensures { result ≡ shr_modulo w32 x n }
{
    x.wrapping_shr(n)
}

// The floor of x over 2^n, n taken modulo the width.
pub fn shr_u32(x: u32, n: u32) -> u32
    ensures { result ≡ shr_modulo_u w32 x n }
{
    x.wrapping_shr(n)
}

// The floor of x over 2^n, for any n.
pub fn shr_i64(x: i64, n: u32) -> i64
    ensures { result ≡ shr_z x (2 ^ n) }
{
    x >> n.min(WIDE - 1)
}
