// Numbers in bytes that are all there: no place is tested.
ghost use Rattle.std.specs.Prelude.{◌≡◌, ◌+◌, ◌^◌, ◌≤◌, ◌<◌, length};
ghost use Rattle.low.specs.Bytes.{lows, whole, part, patch, eights, numbers};

// The number in N bytes from a place on.
pub fn get<const N: usize>(b: &[u8], at: usize) -> u64
    requires few { N ≤ 8 }
    requires there { at + N ≤ length b.now }
    ensures number { result ≡ whole (part b.now at N) }
    ensures small { result < 256 ^ N }
{
    let mut bytes = [0u8; 8];
    bytes[..N].copy_from_slice(&b[at..at + N]);
    u64::from_le_bytes(bytes)
}

// The N low bytes of a number, from a place on.
pub fn put<const N: usize>(b: &mut [u8], at: usize, x: u64)
    requires few { N ≤ 8 }
    requires there { at + N ≤ length b.old }
    ensures { b.new ≡ patch b.old at (lows N x) }
{
    b[at..at + N].copy_from_slice(&x.to_le_bytes()[..N]);
}

// Sixteen numbers of eight bytes, from a place on.
pub fn get_words(b: &[u8], at: usize) -> [u64; 16]
    requires { at + 128 ≤ length b.now }
    ensures { result ≡ numbers 16 b.now at }
{
    let mut xs = [0u64; 16];
    for i in 0..16 {
        xs[i] = get::<8>(b, at + 8 * i);
    }
    xs
}

// Sixteen numbers, eight bytes each, from a place on.
pub fn put_words(b: &mut [u8], at: usize, xs: [u64; 16])
    requires { at + 128 ≤ length b.old }
    ensures { b.new ≡ patch b.old at (eights 16 xs) }
{
    for n in 0..16 {
        put::<8>(b, at + 8 * n, xs[n]);
    }
}
