// The number that a word spells.
ghost use Rattle.std.specs.Prelude.{◌≡◌, ◌≤◌};
ghost use Rattle.words.specs.Spelling.{spelled};

// The number that s spells in a base.
fn number(s: &[u8], base: u32) -> Option<u64>
    requires { (2 ≤ base) × (base ≤ 16) }
    ensures { result ≡ spelled base s.now }
{
    if s.is_empty() {
        return None;
    }
    let mut n: u64 = 0;
    for &c in s {
        let d = char::from(c).to_digit(base)?;
        n = n.checked_mul(u64::from(base))?.checked_add(u64::from(d))?;
    }
    Some(n)
}

// The number that a word spells in decimal digits, where it has 64 bits at most.
pub fn decimal(s: &[u8]) -> Option<u64>
    ensures { result ≡ spelled 10 s.now }
{
    number(s, 10)
}

// The number that a word spells in hexadecimal digits, where it has 64 bits at most.
pub fn hex(s: &[u8]) -> Option<u64>
    ensures { result ≡ spelled 16 s.now }
{
    number(s, 16)
}
