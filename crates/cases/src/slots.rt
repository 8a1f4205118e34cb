// Slots: their 136 bytes, and 1 where they are well formed.
ghost use Rattle.std.specs.Prelude.{◌≡◌};
ghost use Rattle.cases.specs.Judged.{slot_right};

// Whether the test for well-formed slots answers what a record says.
pub fn is_right(case: &[u8]) -> bool
    ensures { result ≡ slot_right case.now }
{
    slot::well_formed(case, 0) == (low::byte(case, 136) == 1)
}
