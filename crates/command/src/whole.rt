// The whole text of a command.
ghost use Rattle.std.specs.Prelude.{◌≡◌, ◌+◌, ◌≤◌, ◌<◌, length};
ghost use Rattle.words.specs.Split.{word_count};
ghost use Rattle.asked.specs.Asked.{sheet_at, words_after};
ghost use Rattle.command.specs.Inside.{Adds};
ghost use Rattle.command.specs.Listing.{listing_of, judged_text};

use crate::show::Show;
use asked::{first_bad, sheet_at};

impl Show<'_> {
    // The text where there is a word for the sheet's name, and so many after it.
    fn judged(&mut self, line: &[u8], first: usize, after: usize, readable: bool, bytes: &[u8])
        requires { (self.old.at ≡ 0) × (first ≡ sheet_at line.now) × (first ≤ 1) × (after ≡ words_after line.now)
            × (length line.now ≤ 65536) × (first + after < word_count line.now) }
        ensures { Adds self.old self.new (judged_text line.now readable bytes.now) }
    {
        let odd = after % 3;
        if odd != 0 {
            self.complain(
                b"too few words after ",
                words::word(line, first + after - odd),
            );
        } else if let Some(bad) = first_bad(line, first + 1, after / 3) {
            self.complain(b"bad word ", words::word(line, bad));
        } else if !readable {
            self.complain(b"cannot read ", words::word(line, first));
        } else {
            self.pages(bytes, line, first + 1, after / 3, first == 1);
        }
    }

    // The text of a command, as much of it as there is room for.
    pub(crate) fn whole(&mut self, line: &[u8], readable: bool, bytes: &[u8])
        requires { self.old.at ≡ 0 }
        ensures { Adds self.old self.new (listing_of line.now readable bytes.now) }
    {
        if 65536 < line.len() {
            self.complain(b"the words are over 65536 bytes", b"");
            return;
        }
        let n = words::count(line);
        let first = sheet_at(line);
        if n <= first {
            self.text(b"usage: listing [-v] SHEET [ENTRY TYPE BITS]...\n");
        } else {
            self.judged(line, first, n - first - 1, readable, bytes);
        }
    }
}
