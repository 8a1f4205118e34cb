// Fields of a string of bytes. A byte past its end reads as 0, so that no place needs a proof.
ghost use Rattle.std.specs.Prelude.{◌≡◌, ◌*◌, ◌-◌, ◌<◌, length, get_or};
ghost use Rattle.low.specs.Bytes.{whole, part, numbers};
ghost use Rattle.low.specs.Part.{PartOf};

use crate::words::get;

// How many bytes are left from a place on.
pub fn remaining(s: &[u8], at: usize) -> usize
    ensures { result ≡ length s.now - at }
{
    s.len().saturating_sub(at)
}

// The byte at a place.
pub fn byte(s: &[u8], at: usize) -> u8
    ensures { result ≡ get_or s.now at 0 }
{
    s.get(at).copied().unwrap_or(0)
}

// The n bytes at a place, or those of them that are there, as a part of s.
pub fn part(s: &[u8], at: usize, n: usize) -> &[u8]
    ensures { PartOf s.entry at n result }
{
    let rest = &s[at.min(s.len())..];
    &rest[..n.min(rest.len())]
}

// The number in the four bytes at a place, low byte first.
pub fn word(s: &[u8], at: usize) -> u32
    ensures { result ≡ whole (part s.now at 4) }
{
    let p = part(s, at, 4);
    u32::from_le_bytes([byte(p, 0), byte(p, 1), byte(p, 2), byte(p, 3)])
}

// The number in the first eight bytes, low byte first.
pub fn number(s: &[u8]) -> u64
    ensures { result ≡ whole (part s.now 0 8) }
{
    u64::from_le_bytes([
        byte(s, 0),
        byte(s, 1),
        byte(s, 2),
        byte(s, 3),
        byte(s, 4),
        byte(s, 5),
        byte(s, 6),
        byte(s, 7),
    ])
}

// Number i of those that follow one another in eight bytes each.
fn nth(s: &[u8], i: usize) -> u64
    requires { i < 16 }
    ensures { result ≡ whole (part s.now (8 * i) 8) }
{
    let at = 8 * i;
    if at + 8 <= s.len() {
        return get::<8>(s, at);
    }
    number(part(s, at, 8))
}

// The sixteen numbers of eight bytes from the start of s on. Those of which no byte is there are 0, and are not looked for.
pub fn numbers(s: &[u8]) -> [u64; 16]
    ensures { result ≡ numbers 16 s.now 0 }
{
    let mut xs = [0u64; 16];
    for i in 0..s.len().div_ceil(8).min(16) {
        xs[i] = nth(s, i);
    }
    xs
}
