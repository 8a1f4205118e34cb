// The changes that a command asks for.
ghost use Rattle.std.specs.Prelude.{◌≡◌, ◌+◌, ◌*◌, ◌^◌, ◌<◌};
ghost use Rattle.words.specs.Spelling.{spelled};
ghost use Rattle.asked.specs.Asked.{code_of, asked_at, asked_from, first_bad};

// An entry, the code of a type and 8 bytes of content.
#[derive(Clone, Copy, Debug, PartialEq, Eq)]
pub struct Change {
    pub entry: u64,
    pub ty: u8,
    pub bits: u64,
}

// The type's code that a word spells.
fn code(word: &[u8]) -> Option<u8>
    ensures { result ≡ code_of (spelled 10 word.now) }
{
    let ty = u8::try_from(words::decimal(word)?).ok()?;
    types::known(ty).then_some(ty)
}

// The change that stands in the three words from word k on; or the number of the first of them that is bad.
pub fn change_at(line: &[u8], k: usize) -> Result<Change, usize>
    requires { k + 2 < 2 ^ 64 }
    ensures { result ≡ asked_at line.now k }
{
    let entry = words::decimal(words::word(line, k)).ok_or(k)?;
    let ty = code(words::word(line, k + 1)).ok_or(k + 1)?;
    let bits = words::hex(words::word(line, k + 2)).ok_or(k + 2)?;
    Ok(Change { entry, ty, bits })
}

// The number of the first word that is none of a change's, among n changes from word `from` on.
pub fn first_bad(line: &[u8], from: usize, n: usize) -> Option<usize>
    requires { from + 3 * n < 2 ^ 64 }
    ensures { result ≡ first_bad (asked_from n line.now from) }
{
    for i in 0..n {
        if let Err(k) = change_at(line, from + 3 * i) {
            return Some(k);
        }
    }
    None
}
