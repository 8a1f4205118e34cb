// The command `listing [-v] SHEET [ENTRY TYPE BITS]...`, given its words, each ended by a byte 0: one function makes the whole text from the words
// and the file's bytes, and around it the file is read and the text is written.
#![tactic(auto)]

mod pages;
mod show;
mod whole;

ghost use Rattle.std.specs.Prelude.{◌≤◌, length, IfSome};
ghost use Rattle.io.specs.Counts.{IsPrefixLen};
ghost use Rattle.text.specs.Text.{Put};
ghost use Rattle.command.specs.Listing.{listing_of, printed};

use show::Show;
use std::fs;
use std::rt::Files;

// The text of a command at the start of a lent buffer, given whether its file could be read and the file's bytes. Says its length. The text is made
// twice, to measure it and to write it where it fits.
// The flag stands beside the bytes: the definition speaks of any bytes of a file that cannot be read.
pub fn listing(out: &mut [u8], line: &[u8], readable: bool, bytes: &[u8]) -> usize
    ensures put { Put out.old out.new 0 result
        (printed (length out.old) (listing_of line.now readable bytes.now)) }
    ensures prefix_len { IsPrefixLen result out.new }
{
    let room = out.len();
    let mut measured = Show {
        out: &mut [],
        at: 0,
    };
    measured.whole(line, readable, bytes);
    let mut show = Show { out, at: 0 };
    if room < measured.at {
        show.complain(b"too much for one command", b"");
        return show.at.min(room);
    }
    show.whole(line, readable, bytes);
    show.at
}

// Reads the file's bytes to the start of a buffer, as many as it holds, and says how many. A name that is no UTF-8 names no file that std can open.
fn load<R: Files>(rt: &R, path: &[u8], bytes: &mut [u8]) -> Option<usize>
    ensures { IfSome result (λ n. n ≤ length bytes.new) }
{
    let path = str::from_utf8(path).ok()?;
    let mut file = fs::open(rt, path).ok()?;
    let n = reading::fill(&mut file, bytes).ok()?;
    let mut one = [0u8; 1];
    reading::fill(&mut file, &mut one).ok()?;
    Some(n)
}

// Writes the text of a command, which is at most as long as this buffer.
fn print<R: Print>(
    rt: &R,
    out: &mut [u8; 4194304],
    line: &[u8],
    readable: bool,
    bytes: &[u8],
) -> std::io::Result<()> {
    let n = listing(out, line, readable, bytes);
    rt.write_all(&out[..n])
}

// The same, in a buffer of its own: as a local of `run` it was filled with zeros twice.
fn print_out<R: Print>(rt: &R, line: &[u8], readable: bool, bytes: &[u8]) -> std::io::Result<()> {
    let mut out = [0u8; 4194304];
    print(rt, &mut out, line, readable, bytes)
}

// Runs the command: reads its file, of which a byte past the longest sheet is enough, and writes its text.
pub fn run<R: Files + Print>(rt: &R, line: &[u8]) -> std::io::Result<()> {
    let mut bytes = [0u8; 16385];
    let read = load(rt, asked::sheet_word(line), &mut bytes);
    let n = read.unwrap_or(0);
    print_out(rt, line, read.is_some(), &bytes[..n])
}
