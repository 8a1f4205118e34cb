// Records of the lists of fixed answers on values: whether what they ask is answered as they say.
#![tactic(auto)]

pub mod operators;
mod record;
pub mod roundings;
pub mod scalars;
pub mod shapes;
pub mod slots;

ghost use Rattle.std.specs.Prelude.{◌≡◌};
ghost use Rattle.cases.specs.Judged.{answered_so};

// Whether a packed answer is what a record says: a number in one byte, and its detail in four.
pub fn answers(answer: u64, said: &[u8]) -> bool
    ensures { result ≡ answered_so answer said.now }
{
    let number = low::byte(said, 0) as u64;
    answer == number * 0x1_0000_0000 + low::word(said, 1) as u64
}
