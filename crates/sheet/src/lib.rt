// A sheet of constants as bytes: its records and nodes, every check of them with its number and byte place, and which
// entries an entry names.
#![tactic(auto)]

mod stage; // stage.rt: what a stage byte means
mod literals; // literals.rt: a literal node and its value
mod node; // node.rt: the nodes of a body, each reading its operands
mod record; // record.rt: a record's head and body
mod names; // names.rt: the entries that a body names

ghost use Rattle.std.specs.Prelude.{◌≡◌, ◌-◌, ◌≤◌, length, leb, Ok};
ghost use Rattle.low.specs.Read.{must, refusal};
ghost use Rattle.value.specs.Refusals.{CutShort};
ghost use Rattle.sheet.specs.Sheet.{read_sheet, counted_of};

pub use literals::literal_at;
use low::{Refused, remaining};
pub use names::names_marked;
use operand::Instance;
use record::read_record;
pub use record::{body, read_head};
pub use stage::kind_of;
use value::refusals;

// What an entry is: a setting, or an expression.
#[derive(Clone, Copy, Debug, PartialEq, Eq)]
pub enum Kind {
    Setting,
    Expression,
}

// What a record's first five bytes say: its stage byte, where its body starts and how long it is.
#[derive(Clone, Copy, Debug, PartialEq, Eq)]
pub struct Head {
    pub start: usize,
    pub len: usize,
    pub stage: u8,
}

// A record that was read: the stage that it counts as and the place after it.
#[derive(Clone, Copy, Debug, PartialEq, Eq)]
pub struct Passed {
    pub next: usize,
    pub stage: u8,
}

// A literal's value and the place after it.
#[derive(Clone, Copy, Debug, PartialEq, Eq)]
pub struct Literal {
    pub value: Instance,
    pub next: usize,
}

// A refusal by its number, at a byte place.
pub(crate) fn refused(number: u8, place: usize) -> Refused
    ensures { result ≡ record { number = number; place = place } }
{
    Refused { number, place }
}

// Judges that n bytes are there from a place on; the refusal's place is the end, where the missing ones begin. `left`
// follows from `answer`: it stands there for the bounds that callers prove.
pub(crate) fn there(b: &[u8], at: usize, n: usize) -> Result<(), Refused>
    ensures answer { result ≡ must (leb n (length b.now - at)) (refusal CutShort (length b.now)) (Ok tt) }
    ensures left { result ≡ Ok tt → n ≤ length b.now - at }
{
    if remaining(b, at) < n {
        return Err(refused(refusals::CUT_SHORT, b.len()));
    }
    Ok(())
}

// Checks a whole sheet from its first byte on: the number of its entries, or the first check that fails.
pub fn check(s: &[u8]) -> Result<usize, Refused>
    ensures { result ≡ counted_of (read_sheet s.now) }
{
    if 16384 < s.len() {
        return Err(refused(refusals::SHEET_TOO_LONG, 0));
    }
    let mut stages = [0u8; 128];
    let mut n: usize = 0;
    let mut at: usize = 0;
    // Records differ in length, so a step is no count.
    while at < s.len() {
        if 128 <= n {
            return Err(refused(refusals::TOO_MANY_ENTRIES, at));
        }
        let passed = read_record(s, &stages[..n], at)?;
        stages[n] = passed.stage;
        n += 1;
        at = passed.next;
    }
    Ok(n)
}
