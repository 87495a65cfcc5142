// The totals of a pack: how many records its sheets make, and how many of them are refused. The newest sheet is the last one, and the walk begins with it.
#![tactic(auto)]

ghost use Rattle.std.specs.Prelude.{◌≡◌};
ghost use Rattle.cells.specs.Outcomes.{outcome};
ghost use Rattle.pack.specs.Pack.{Checks, sheets_of};
ghost use Rattle.totals.specs.Totals.{totals, taken, pack_totals};

use cells::cell_at;
use cells::refusals::Refused;
use generation::count;
use pack::{pack_check, sheet_at};

// These are the records of the sheets that lower, and the number of sheets that are refused.
#[derive(Clone, Copy, Debug, PartialEq, Eq)]
pub struct Totals {
    pub records: u64,
    pub refused: u64,
}

// It walks over the sheets of a good pack, from the last to the first.
fn walk(tables: &[u8], pack: &[u8]) -> Totals
    requires { Checks pack.now }
    ensures { result ≡ taken tables.now (totals 0 0) (sheets_of pack.now) }
{
    let sheets = cell_at(pack, 0) as usize;
    let mut records: u64 = 0;
    let mut refused: u64 = 0;
    for i in 0..sheets {
        match count(tables, sheet_at(pack, sheets - 1 - i)) {
            Ok(needed) => {
                records += needed;
            }
            Err(_) => {
                refused += 1;
            }
        }
    }
    Totals { records, refused }
}

// Of a bad pack the first wrong cell is refused. Bad tables refuse every sheet, and no refusal of theirs is answered.
pub fn pack_totals(tables: &[u8], pack: &[u8]) -> Result<Totals, Refused>
    ensures { outcome result ≡ pack_totals tables.now pack.now }
{
    pack_check(pack)?;
    Ok(walk(tables, pack))
}
