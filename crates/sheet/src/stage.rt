// What a stage byte means.
ghost use Rattle.std.specs.Prelude.{◌≡◌};
ghost use Rattle.sheet.specs.Stage.{stage_known, kind_of, counts_as};

use crate::Kind;

// Whether there is such a stage byte.
pub(crate) fn stage_known(stage: u8) -> bool
    ensures { result ≡ stage_known stage }
{
    stage <= 3
}

// What the entry of a record with this stage byte is.
pub fn kind_of(stage: u8) -> Kind
    ensures { result ≡ kind_of stage }
{
    if stage == 3 {
        return Kind::Setting;
    }
    Kind::Expression
}

// The stage that it counts as.
pub(crate) fn counts_as(stage: u8) -> u8
    ensures { result ≡ counts_as (kind_of stage) stage }
{
    match kind_of(stage) {
        Kind::Setting => 1,
        Kind::Expression => stage,
    }
}
