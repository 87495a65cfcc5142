// The plain test: the lowering's answer, and then the conditions on plain functions.
ghost use Rattle.std.specs.Prelude.{◌≡◌};
ghost use Rattle.machine.specs.Plain.{first_fault};
ghost use Rattle.plain.specs.Answers.{plain_says};

use crate::count;
use plain::{plain_accepted, plain_refused};

// It gives the first number at fault, where there is one: not every condition holds then.
pub fn plainness(tables: &[u8], sheet: &[u8]) -> Option<u64>
    ensures { plain_says result ≡ first_fault tables.now sheet.now }
{
    match count(tables, sheet) {
        Ok(_) => plain_accepted(sheet),
        Err(refused) => plain_refused(sheet, refused),
    }
}
