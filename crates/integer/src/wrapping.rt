// Products that wrap around, by an own multiplication as 01 has them: the exact result reduced modulo a power of two.
ghost use Rattle.std.specs.Prelude.{◌≡◌, pos, ◌*ℤ◌};
ghost use Rattle.std.specs.Int.{w32};
ghost use Rattle.integer.specs.Wrap.{wrap_u, wrap_s};

// x times y, modulo 2^32.
pub fn mul_u32(x: u32, y: u32) -> u32
    ensures { result ≡ wrap_u w32 (pos x *ℤ pos y) }
{
    ((x as u64) * (y as u64) % 0x1_0000_0000) as u32
}

// x times y, reduced modulo 2^32 into the type.
pub fn mul_i32(x: i32, y: i32) -> i32
    ensures { result ≡ wrap_s w32 (x *ℤ y) }
{
    mul_u32(x.cast_unsigned(), y.cast_unsigned()).cast_signed()
}
