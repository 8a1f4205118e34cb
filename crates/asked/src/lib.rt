// The words of the command `listing [-v] SHEET [ENTRY TYPE BITS]...`, each ended by a byte 0: the sheet's name, and the changes that are asked for.
#![tactic(auto)]

mod asked;
mod sheet;

pub use asked::{Change, change_at, first_bad};
pub use sheet::{sheet_at, sheet_word};
