// The text of a listing, at the start of a lent buffer that holds the longest one.
#![tactic(auto)]

mod lines;
mod movers;
mod put;

ghost use Rattle.std.specs.Prelude.{◌≤◌};
ghost use Rattle.io.specs.Counts.{IsPrefixLen};
ghost use Rattle.text.specs.Text.{Put, listing, refusal_line, moved_line};

use put::Text;

// The listing of a results buffer. Says its length.
pub fn list(out: &mut [u8; 65536], results: &[u8]) -> usize
    ensures put { Put out.old out.new 0 result (listing results.now) }
    ensures prefix_len { IsPrefixLen result out.new }
    ensures upper_bound { result ≤ 65536 }
{
    let mut text = Text { out, at: 0 };
    let n = lines::entries(results);
    text.labelled(b"sheet ", n as u64);
    text.bytes(b"\n");
    text.lines(results, n);
    text.at
}

// What a refused sheet or change lists as. Says its length.
pub fn refuse(out: &mut [u8; 65536], number: u8) -> usize
    ensures put { Put out.old out.new 0 result (refusal_line number) }
    ensures prefix_len { IsPrefixLen result out.new }
    ensures upper_bound { result ≤ 65536 }
{
    let mut text = Text { out, at: 0 };
    text.labelled(b"refused ", u64::from(number));
    text.bytes(b"\n");
    text.at
}

// What is said of a change that n entries depend on, of which the marked ones but the setting's own moved. Says its length.
pub fn moved(out: &mut [u8; 65536], n: u64, marks: &[bool; 128], own: u64) -> usize
    ensures put { Put out.old out.new 0 result (moved_line n marks.now own) }
    ensures prefix_len { IsPrefixLen result out.new }
    ensures upper_bound { result ≤ 65536 }
{
    let mut text = Text { out, at: 0 };
    text.labelled(b"moved ", n);
    text.movers(marks, own);
    text.bytes(b"\n");
    text.at
}
