// Which entries a body names, by its bytes: one pass over its nodes, which stand in prefix order.
ghost use Rattle.std.specs.Prelude.{◌≡◌, false, ◌+◌, ◌<◌, ◌≤◌, eqb, length, get_or};
ghost use Rattle.types.specs.Edition.{plain};
ghost use Rattle.value.specs.Pattern.{pick};
ghost use Rattle.sheet.specs.Node.{literal_end};
ghost use Rattle.sheet.specs.Accepted.{Bodied, NamesMarked, Filled, TreeMarked};

use crate::Kind;
use crate::literals::area;
use crate::stage::kind_of;

// Whether the node at a place is a reference to a marked entry.
fn marked_at(b: &[u8], at: usize, marks: &[bool; 128]) -> bool
    requires { (at + 1 < length b.now) × (get_or b.now at 0 ≡ 2 → get_or b.now (at + 1) 0 < 128) }
    ensures { result ≡ pick (eqb (get_or b.now at 0) 2) (get_or marks.now (get_or b.now (at + 1) 0) false) false }
{
    if b[at] != 2 {
        return false;
    }
    let k = b[at + 1] as usize;
    marks[k]
}

// Where the next node in prefix order starts: after a literal's components, else after two bytes.
fn after(b: &[u8], at: usize) -> usize
    requires { (at + 1 < length b.now) × (get_or b.now at 0 ≡ 1 → literal_end b.now at ≤ length b.now) }
    ensures { result ≡ pick (eqb (get_or b.now at 0) 1) (literal_end b.now at) (at + 2) }
{
    if b[at] == 1 {
        return at + 4 + 8 * area(b[at + 2], b[at + 3]);
    }
    at + 2
}

// Whether one of the nodes of an expression that fills a body is a reference to a marked entry.
fn scan(b: &[u8], marks: &[bool; 128]) -> bool
    requires { Filled plain b.now }
    ensures { TreeMarked plain b.now marks.now result }
{
    let mut at: usize = 0;
    // Nodes differ in length, so a step is no count.
    while at < b.len() {
        if marked_at(b, at, marks) {
            return true;
        }
        at = after(b, at);
    }
    false
}

// Whether the entry of an accepted body with this stage byte names a marked entry; a setting names none.
pub fn names_marked(b: &[u8], stage: u8, marks: &[bool; 128]) -> bool
    requires { Bodied plain stage b.now }
    ensures { NamesMarked plain stage b.now marks.now result }
{
    match kind_of(stage) {
        Kind::Setting => false,
        Kind::Expression => scan(b, marks),
    }
}
