// Pieces of text, one after another in a lent buffer.
ghost use Rattle.std.specs.Prelude.{◌∷◌, ◌++◌, ◌+◌, ◌*◌, ◌≤◌, length, take};
ghost use Rattle.text.specs.Inside.{Puts};
ghost use Rattle.text.specs.Text.{dec, digits_of, spaced, words};

// A lent buffer, and the place after the text that stands in it.
#[derive(Drop)]
pub(crate) struct Text<'a> {
    pub(crate) out: &'a mut [u8],
    pub(crate) at: usize,
}

impl Text<'_> {
    // The bytes of s.
    pub(crate) fn bytes(&mut self, s: &[u8])
        requires { self.old.at + length s.now ≤ length self.old.out.now }
        ensures { Puts self.old self.new s.now }
    {
        let end = self.at + s.len();
        self.out[self.at..end].copy_from_slice(s);
        self.at = end;
    }

    // The decimal digits of n.
    pub(crate) fn decimal(&mut self, n: u64)
        requires { self.old.at + 20 ≤ length self.old.out.now }
        ensures { Puts self.old self.new (dec n) × (self.new.at ≤ self.old.at + 20) }
    {
        let mut digits = [0u8; 20];
        let k = io::decimal(n, &mut digits);
        self.bytes(&digits[..k]);
    }

    // A space and the digits of x: its sixteen hexadecimal ones, or its decimal ones. The truth tells which, as in `digits_of`: with a
    // method for each of them, `row` would be the same loop twice.
    pub(crate) fn number(&mut self, x: u64, hexadecimal: bool)
        requires { self.old.at + 21 ≤ length self.old.out.now }
        ensures { Puts self.old self.new (32 ∷ digits_of hexadecimal x) × (self.new.at ≤ self.old.at + 21) }
    {
        self.bytes(b" ");
        if hexadecimal {
            let mut digits = [0u8; 16];
            let k = io::hex(x, 16, &mut digits);
            self.bytes(&digits[..k]);
        } else {
            self.decimal(x);
        }
    }

    // Each number after a space.
    pub(crate) fn row(&mut self, xs: &[u64], hexadecimal: bool)
        requires { self.old.at + 21 * length xs.now ≤ length self.old.out.now }
        ensures { Puts self.old self.new (spaced (digits_of hexadecimal) xs.now) × (self.new.at ≤ self.old.at + 21 * length xs.now) }
    {
        for &x in xs {
            self.number(x, hexadecimal);
        }
    }

    // The bytes of s and the decimal digits of n.
    pub(crate) fn labelled(&mut self, s: &[u8], n: u64)
        requires { self.old.at + length s.now + 20 ≤ length self.old.out.now }
        ensures { Puts self.old self.new (s.now ++ dec n) × (self.new.at ≤ self.old.at + length s.now + 20) }
    {
        self.bytes(s);
        self.decimal(n);
    }
}
