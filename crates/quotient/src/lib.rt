// Signed quotients that truncate and remainders that take the left sign, where there are any: there is none for a zero divisor and
// for the minimum by -1. They are std's methods, promised in the words of `no_quotient`.
#![tactic(auto)]

ghost use Rattle.std.specs.Prelude.{◌≡◌};
ghost use Rattle.std.specs.Int.Signed.{quot_z, rem_z};
ghost use Rattle.std.specs.Int.{w32, w64};
ghost use Rattle.integer.specs.Range.{pick};
ghost use Rattle.quotient.specs.Quotient.{no_quotient};

// x by y, truncated.
pub fn div_i32(x: i32, y: i32) -> Option<i32>
    ensures { result ≡ pick (no_quotient w32 x y) None (Some (quot_z x y)) }
{
    x.checked_div(y)
}

// What x by y leaves.
pub fn rem_i32(x: i32, y: i32) -> Option<i32>
    ensures { result ≡ pick (no_quotient w32 x y) None (Some (rem_z x y)) }
{
    x.checked_rem(y)
}

// x by y, truncated.
pub fn div_i64(x: i64, y: i64) -> Option<i64>
    ensures { result ≡ pick (no_quotient w64 x y) None (Some (quot_z x y)) }
{
    x.checked_div(y)
}

// What x by y leaves.
pub fn rem_i64(x: i64, y: i64) -> Option<i64>
    ensures { result ≡ pick (no_quotient w64 x y) None (Some (rem_z x y)) }
{
    x.checked_rem(y)
}
