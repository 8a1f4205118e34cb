// Reading into a lent buffer.
#![tactic(auto)]

ghost use Rattle.std.specs.Prelude.{◌≤◌, ◌<◌, length, take, IfOk};
ghost use Rattle.std.specs.Io.KnownBytes.{Consumes, IsAtEnd};

use std::io::{Read, Result};

// Reads until the buffer is full or the input ends. Says how many bytes it put at the start of the buffer.
// std's `read_exact` does not say how many a shorter input gave, and `read_to_end` allocates.
pub fn fill<R: Read>(from: &mut R, buf: &mut [u8]) -> Result<usize>
    ensures bound { IfOk result (λ n. n ≤ length buf.new) }
    ensures bytes { IfOk result (λ n. Consumes (R.remaining from.old) (R.remaining from.new) (take n buf.new)) }
    ensures end { IfOk result (λ n. n < length buf.new → IsAtEnd (R.remaining from.new)) }
{
    let mut at = 0;
    while at < buf.len() {
        let n = from.read(&mut buf[at..])?;
        if n == 0 {
            break;
        }
        at += n;
    }
    Ok(at)
}
