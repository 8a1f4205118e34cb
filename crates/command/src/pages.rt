// The pages of a sheet: its fresh results, and each change of them.
ghost use Rattle.std.specs.Prelude.{◌≡◌, ◌+◌, ◌*◌, ◌^◌, ◌≤◌, ◌<◌, true, Ok};
ghost use Rattle.sheet.specs.Sheet.{read_sheet};
ghost use Rattle.asked.specs.Asked.{asked_at, asked_from};
ghost use Rattle.command.specs.Listing.{page, moved_page, change_page, after_change, change_pages, entries_of, pages};
ghost use Rattle.command.specs.Inside.{Adds};

use crate::show::Show;
use asked::{Change, change_at};
use low::Refused;

impl Show<'_> {
    // The listing of results, or the refusal's number.
    fn page(&mut self, answer: Result<usize, Refused>, results: &[u8])
        requires { self.old.at + 65536 < 2 ^ 64 }
        ensures { Adds self.old self.new (page answer results.now) × (self.new.at ≤ self.old.at + 65536) }
    {
        let mut space = io::large_buffer();
        let n = match answer {
            Ok(_) => text::list(&mut space, results),
            Err(refused) => text::refuse(&mut space, refused.number),
        };
        self.text(&space[..n]);
    }

    // The entries that an accepted change moved.
    fn moved(&mut self, answer: Result<usize, Refused>, marks: &[bool; 128], own: u64)
        requires { self.old.at + 65536 < 2 ^ 64 }
        ensures { Adds self.old self.new (moved_page true answer marks.now own) × (self.new.at ≤ self.old.at + 65536) }
    {
        if let Ok(dependents) = answer {
            let mut space = io::large_buffer();
            let n = text::moved(&mut space, dependents as u64, marks, own);
            self.text(&space[..n]);
        }
    }

    // One change, and its listing; before it, where they are asked for, the entries that it moved. A refused one leaves the results as they are.
    fn change(&mut self, sheet: &[u8], results: &mut [u8], change: Change, verbose: bool)
        requires { self.old.at + 131072 < 2 ^ 64 }
        ensures { Adds self.old self.new (change_page verbose (read_sheet sheet.now) results.old (Ok change))
            × (results.new ≡ after_change (read_sheet sheet.now) results.old (Ok change))
            × (self.new.at ≤ self.old.at + 131072) }
    {
        let mut marks = [false; 128];
        let Change { entry, ty, bits } = change;
        let answer = fold::change_marking(sheet, results, entry, ty, bits, &mut marks);
        if verbose {
            self.moved(answer, &marks, entry);
        }
        self.page(answer, results);
    }

    // The change in the three words from word k on.
    fn change_in(&mut self, sheet: &[u8], results: &mut [u8], line: &[u8], k: usize, verbose: bool)
        requires { (self.old.at + 131072 < 2 ^ 64) × (k + 2 < 2 ^ 64) }
        ensures { Adds self.old self.new (change_page verbose (read_sheet sheet.now) results.old (asked_at line.now k))
            × (results.new ≡ after_change (read_sheet sheet.now) results.old (asked_at line.now k))
            × (self.new.at ≤ self.old.at + 131072) }
    {
        if let Ok(change) = change_at(line, k) {
            self.change(sheet, results, change, verbose);
        }
    }

    // Each of n changes in the words from word `from` on.
    fn changes(
        &mut self,
        sheet: &[u8],
        results: &mut [u8],
        line: &[u8],
        from: usize,
        n: usize,
        verbose: bool,
    )
        requires { (self.old.at + 131072 * n < 2 ^ 64) × (from + 3 * n < 2 ^ 64) }
        ensures { Adds self.old self.new (change_pages verbose (read_sheet sheet.now) results.old (asked_from n line.now from)) }
    {
        for i in 0..n {
            self.change_in(sheet, results, line, from + 3 * i, verbose);
        }
    }

    // The listing of the fresh results, and those after each of n changes in the words from word `from` on.
    pub(crate) fn pages(&mut self, sheet: &[u8], line: &[u8], from: usize, n: usize, verbose: bool)
        requires { (self.old.at + 65536 + 131072 * n < 2 ^ 64) × (from + 3 * n < 2 ^ 64) }
        ensures { Adds self.old self.new (pages verbose (read_sheet sheet.now) (asked_from n line.now from)) }
    {
        let mut all = [0u8; 17408];
        let size = 136 * entries(sheet);
        let results: &mut [u8] = &mut all[..size];
        let answer = fold::evaluate(sheet, results);
        self.page(answer, results);
        self.changes(sheet, results, line, from, n, verbose);
    }
}

// How many entries a sheet has, 0 where it is refused. No sheet has more than 128.
fn entries(sheet: &[u8]) -> usize
    ensures { (result ≡ entries_of (read_sheet sheet.now)) × (result ≤ 128) }
{
    fold::check(sheet).unwrap_or(0)
}
