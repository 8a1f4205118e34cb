// The sheet's name among the words.
ghost use Rattle.std.specs.Prelude.{◌≡◌, ◌≤◌};
ghost use Rattle.words.specs.Split.{WordOf};
ghost use Rattle.asked.specs.Asked.{dash_v, sheet_at};

// Whether a word is `-v`.
fn dash_v(w: &[u8]) -> bool
    ensures { result ≡ dash_v w.now }
{
    w == b"-v".as_slice()
}

// Which word is the sheet's name.
pub fn sheet_at(line: &[u8]) -> usize
    ensures { (result ≡ sheet_at line.now) × (result ≤ 1) }
{
    usize::from(dash_v(words::word(line, 0)))
}

// The sheet's name, as a part of the line.
pub fn sheet_word(line: &[u8]) -> &[u8]
    ensures { WordOf line.entry (sheet_at line.now) result }
{
    words::word(line, sheet_at(line))
}
