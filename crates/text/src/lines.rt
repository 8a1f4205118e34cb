// The lines of a listing.
ghost use Rattle.std.specs.Prelude.{◌≡◌, ◌+◌, ◌*◌, ◌/◌, ◌≤◌, min, length, take};
ghost use Rattle.types.specs.Edition.{plain};
ghost use Rattle.slot.specs.Slot.{slot, said_by, well_formed};
ghost use Rattle.text.specs.Inside.{Puts};
ghost use Rattle.text.specs.Text.{words, line, lines, entries};

use crate::put::Text;
use operand::Instance;

// How many entries a results buffer has.
pub(crate) fn entries(results: &[u8]) -> usize
    ensures { (result ≡ entries results.now) × (result ≤ 128) }
{
    (results.len() / 136).min(128)
}

// How many components a shape has, and no more than there are places for them.
fn used(cols: u8, rows: u8) -> usize
    ensures { (result ≡ min (cols * rows) 16) × (result ≤ 16) }
{
    (usize::from(cols) * usize::from(rows)).min(16)
}

impl Text<'_> {
    // The components in use.
    fn components(&mut self, v: Instance)
        requires { self.old.at + 336 ≤ length self.old.out.now }
        ensures { Puts self.old self.new (words (take (v.cols * v.rows) v.comps)) × (self.new.at ≤ self.old.at + 336) }
    {
        self.row(&v.comps[..used(v.cols, v.rows)], true);
    }

    // Entry k's line.
    fn entry(&mut self, results: &[u8], k: usize)
        requires { self.old.at + 480 ≤ length self.old.out.now }
        ensures { Puts self.old self.new (line k (said_by (slot results.now k)) (well_formed plain (slot results.now k)))
            × (self.new.at ≤ self.old.at + 480) }
    {
        let o = slot::read(results, k);
        let v = o.value;
        self.decimal(k as u64);
        let fields = [
            u64::from(o.status),
            u64::from(v.ty),
            u64::from(v.cols),
            u64::from(v.rows),
            u64::from(o.detail),
        ];
        self.row(&fields, false);
        if slot::well_formed(results, k) {
            self.components(v);
        }
        self.bytes(b"\n");
    }

    // The lines of the first n entries.
    pub(crate) fn lines(&mut self, results: &[u8], n: usize)
        requires { self.old.at + 480 * n ≤ length self.old.out.now }
        ensures { Puts self.old self.new (lines results.now n) × (self.new.at ≤ self.old.at + 480 * n) }
    {
        for k in 0..n {
            self.entry(results, k);
        }
    }
}
