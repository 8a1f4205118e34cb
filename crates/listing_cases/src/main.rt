// Runs the command `listing` on each line of standard input, with a space between two words, and prints the line before what the
// command prints.
#![tactic(auto)]

ghost use Rattle.std.specs.Prelude.{◌≤◌, length};

use std::io;
use std::rt::Files;

// The words of a line at the start of a buffer, each ended by a byte 0. Says how many bytes they take.
fn split(line: &[u8], words: &mut [u8]) -> usize
    ensures { result ≤ length words.new }
{
    if line.is_empty() || words.len() <= line.len() {
        return 0;
    }
    for (word, &b) in words.iter_mut().zip(line) {
        *word = if b == b' ' { 0 } else { b };
    }
    words[line.len()] = 0;
    line.len() + 1
}

// One command: its line, and what it prints.
fn command<R: Files + Print>(rt: &R, line: &[u8]) -> io::Result<()> {
    rt.write_all(b"$ listing ")?;
    rt.write_all(line)?;
    rt.write_all(b"\n")?;
    let mut words = [0u8; 4096];
    let n = split(line, &mut words);
    command::run(rt, &words[..n])
}

// Each line of a text.
fn script<R: Files + Print>(rt: &R, text: &[u8]) -> io::Result<()> {
    for line in text.split_inclusive(|b| *b == b'\n') {
        command(rt, line.strip_suffix(b"\n").unwrap_or(line))?;
    }
    Ok(())
}

fn main(rt: HostRuntime) -> io::Result<()> {
    let mut text = [0u8; 65536];
    let n = reading::fill(&mut rt.stdin(), &mut text)?;
    script(&rt, &text[..n])
}
