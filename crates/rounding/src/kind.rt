// A kind of float.
ghost use Rattle.std.specs.Prelude.{◌≡◌, ◌*◌, ◌≤◌};
ghost use Rattle.rounding.specs.Kind.{kind};
ghost use Rattle.rounding.specs.Bits.{full, hidden, signed};

// How many digits a significand has, and how far the exponents reach.
#[derive(Clone, Copy)]
pub(crate) struct Kind {
    pub(crate) digits: u64,
    pub(crate) reach: u64,
    ghost sized: { (2 ≤ digits) × (digits ≤ 53) × (1 ≤ reach) × (reach ≤ 1023) },
}

impl Kind {
    pub(crate) const HALF: Kind = Kind {
        digits: 11,
        reach: 15,
    };

    pub(crate) const SINGLE: Kind = Kind {
        digits: 24,
        reach: 127,
    };

    pub(crate) const DOUBLE: Kind = Kind {
        digits: 53,
        reach: 1023,
    };

    // The weight of the exponent's field.
    pub(crate) fn weight(self) -> u64
        ensures { result ≡ hidden (kind self.digits self.reach) }
    {
        1 << (self.digits - 1)
    }

    // The weight of the sign.
    pub(crate) fn sign_weight(self) -> u64
        ensures { result ≡ signed (kind self.digits self.reach) }
    {
        self.weight() * (2 * self.reach + 2)
    }

    // The infinity's bits, without the sign.
    pub(crate) fn infinity(self) -> u64
        ensures { result ≡ full (kind self.digits self.reach) * hidden (kind self.digits self.reach) }
    {
        self.weight() * (2 * self.reach + 1)
    }
}
