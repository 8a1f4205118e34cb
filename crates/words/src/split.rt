// The words of a line, each ended by a byte 0.
ghost use Rattle.std.specs.Prelude.{◌≡◌, ◌+◌, ◌≤◌, length, drop};
ghost use Rattle.words.specs.Split.{before, next_place, WordOf, word_count};

// Where the part ends that starts at a place: at the first byte from there on that is `end`, or behind the last.
pub fn end_of(s: &[u8], from: usize, end: u8) -> usize
    ensures { result ≡ from + length (before end (drop from s.now)) }
{
    // With `position` on what is left each word of a byte or two took half as long again, and a line is walked once for each of its words.
    for i in from..s.len() {
        if s[i] == end {
            return i;
        }
    }
    from.max(s.len())
}

// Where the next word starts.
fn next(s: &[u8], from: usize) -> usize
    requires { from ≤ length s.now }
    ensures { result ≡ from + next_place (drop from s.now) }
{
    let e = end_of(s, from, 0);
    if e < s.len() { e + 1 } else { e }
}

// Word k, counted from 0, as a part of s; nothing, at the end, where there is no such word.
pub fn word(s: &[u8], k: usize) -> &[u8]
    ensures { WordOf s.entry k result }
{
    let mut at = 0;
    for _ in 0..k {
        at = next(s, at);
    }
    let e = end_of(s, at, 0);
    &s[at..e]
}

// How many words there are.
pub fn count(s: &[u8]) -> usize
    ensures { result ≡ word_count s.now }
{
    s.iter().filter(|b| **b == 0).count()
}
