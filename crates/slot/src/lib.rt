// Results: a value or a refusal in 136 lent bytes an entry.
#![tactic(auto)]

mod formed;

ghost use Rattle.std.specs.Prelude.{◌≡◌, length};
ghost use Rattle.types.specs.Edition.{plain};
ghost use Rattle.slot.specs.Slot.{bytes_of, said_by, slot, put, well_formed, reference_to};

use operand::Outcome;
use value::refusals;

// What the bytes of one slot say.
fn said_by(b: &[u8]) -> Outcome
    requires { length b.now ≡ 136 }
    ensures { result ≡ said_by b.now }
{
    Outcome {
        status: b[0],
        detail: low::get::<4>(b, 4) as u32,
        value: operand::Instance {
            ty: b[1],
            cols: b[2],
            rows: b[3],
            comps: low::get_words(b, 8),
        },
    }
}

// An outcome's bytes over those of one slot.
fn say(b: &mut [u8], o: Outcome)
    requires { length b.old ≡ 136 }
    ensures { b.new ≡ bytes_of o }
{
    b[0] = o.status;
    b[1] = o.value.ty;
    b[2] = o.value.cols;
    b[3] = o.value.rows;
    low::put::<4>(b, 4, o.detail as u64);
    low::put_words(b, 8, o.value.comps);
}

// What slot k says, whatever its bytes are. Past the last whole slot that is all zeros, which is not well formed.
pub fn read(results: &[u8], k: usize) -> Outcome
    ensures { result ≡ said_by (slot results.now k) }
{
    if results.len() / 136 <= k {
        return operand::refused(0, 0);
    }
    let a = 136 * k;
    said_by(&results[a..a + 136])
}

// The outcome becomes slot k; no other byte changes. Past the last whole slot nothing is written.
pub fn put(results: &mut [u8], k: usize, o: Outcome)
    ensures { results.new ≡ put results.old k (bytes_of o) }
{
    if results.len() / 136 <= k {
        return;
    }
    let a = 136 * k;
    say(&mut results[a..a + 136], o);
}

// Whether slot k is well formed; past the last whole slot none is.
pub fn well_formed(results: &[u8], k: usize) -> bool
    ensures { result ≡ well_formed plain (slot results.now k) }
{
    formed::formed(read(results, k))
}

// What a reference to an entry reads: the value of its slot, or FromEntry with the entry named.
pub fn reference(results: &[u8], entry: u8) -> Outcome
    ensures { result ≡ reference_to plain results.now entry }
{
    let o = read(results, entry as usize);
    if (o.status == 0) & formed::formed(o) {
        return o;
    }
    operand::refused(refusals::FROM_ENTRY, entry as u32)
}
