// The tables are a string count, then one cell a float, 1 short or 0 long.
ghost use Rattle.std.specs.Prelude.{◌≡◌};
ghost use Rattle.cells.specs.declared.refusals.Refusal.{Refusal};
ghost use Rattle.layout.specs.Layout.{refused_at, floats_check, tables_check};

use crate::limits::{MOST_FLOATS, MOST_STRINGS};
use crate::parts::end_check;
use cells::refusals::{Refusal, Refused};
use cells::{Cursor, WrongCell};

fn bad_table(w: WrongCell) -> Refused
    ensures { result ≡ refused_at Refusal.BadTable w.cell }
{
    Refused {
        refusal: Refusal::BadTable,
        place: w.cell as u64,
    }
}

// There are at most `n` floats from the cursor on.
fn floats_check(t: &[u8], n: u64, c: Cursor) -> Result<Cursor, Refused>
    ensures { result ≡ floats_check t.now n c }
{
    let mut here = c;
    for _ in 0..n {
        if end_check(Refusal::BadTable, t, here).is_ok() {
            return Ok(here);
        }
        (_, here) = here.within(t, 0, 1).map_err(bad_table)?;
    }
    end_check(Refusal::BadTable, t, here)
}

#[tactic(auto, unfolding(crate::specs::Layout::tables_check))]
pub fn tables_check(t: &[u8]) -> Result<Cursor, Refused>
    ensures { result ≡ tables_check t.now }
{
    let (_, next) = Cursor { at: 0 }
        .within(t, 0, MOST_STRINGS)
        .map_err(bad_table)?;
    floats_check(t, MOST_FLOATS, next)
}
