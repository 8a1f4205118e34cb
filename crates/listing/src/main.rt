// Lists a sheet of constants and changes its settings: `listing [-v] SHEET [ENTRY TYPE BITS]...`.
#![tactic(auto)]

ghost use Rattle.std.specs.Prelude.{◌≤◌, length};

use std::env::FillError;
use std::io;
use std::rt::Env;

// The program's words at the start of a line, each ended by a byte 0. Says how many bytes they take; words that do not fit take the whole line.
fn join<R: Env>(rt: &R, line: &mut [u8]) -> usize
    ensures { result ≤ length line.new }
{
    let mut n = 0;
    for i in 1..usize::MAX {
        let length = match rt.arg(i, &mut line[n..]) {
            Ok(length) => length,
            Err(FillError::NotPresent) => return n,
            Err(FillError::TooLong) => return line.len(),
        };
        n += length;
        if line.len() <= n {
            return line.len();
        }
        line[n] = 0;
        n += 1;
    }
    n
}

// The line holds one byte more than the words of a command may take.
fn main(rt: HostRuntime) -> io::Result<()> {
    let mut line = [0u8; 65537];
    let n = join(&rt, &mut line);
    command::run(&rt, &line[0..n])
}
