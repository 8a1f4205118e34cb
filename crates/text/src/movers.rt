// The entries that a change moved.
ghost use Rattle.std.specs.Prelude.{◌+◌, ◌≤◌, ◌<◌, length};
ghost use Rattle.text.specs.Inside.{Puts};
ghost use Rattle.text.specs.Text.{fields, movers};

use crate::put::Text;

impl Text<'_> {
    // The number of each marked entry but the setting's own after a space, in rising order.
    pub(crate) fn movers(&mut self, marks: &[bool; 128], own: u64)
        requires { self.old.at + 2688 ≤ length self.old.out.now }
        ensures { Puts self.old self.new (fields (movers marks.now own 128)) × (self.new.at ≤ self.old.at + 2688) }
    {
        for k in 0..128 {
            if marks[k] & (k as u64 != own) {
                self.number(k as u64, false);
            }
        }
    }
}
