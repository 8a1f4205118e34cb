// The marks of a change: a byte for each of 128 entries.
ghost use Rattle.std.specs.Prelude.{◌≡◌, length};
ghost use Rattle.sheet.specs.Sheet.{read_sheet};
ghost use Rattle.booth.specs.Marks.{mark_bytes, other_size};

use low::Refused;
use value::refusals;

// Writes the byte of each entry: 1 if it was worked, else 0.
pub(crate) fn put(marks: &mut [u8], worked: &[bool; 128])
    requires { length marks.old ≡ 128 }
    ensures { marks.new ≡ mark_bytes worked.now }
{
    for (k, mark) in marks.iter_mut().enumerate() {
        *mark = u8::from(worked[k]);
    }
}

// What a call answers whose marks have another size: the sheet's own refusals stand before that of the size.
pub(crate) fn other_size(sheet: &[u8]) -> Result<usize, Refused>
    ensures { result ≡ other_size (read_sheet sheet.now) }
{
    fold::check(sheet)?;
    Err(Refused {
        number: refusals::RESULTS_SIZE,
        place: 0,
    })
}
