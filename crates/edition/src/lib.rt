// A sheet of either edition is converted into the other.
#![tactic(auto)]

mod entries;
mod write;

ghost use Rattle.std.specs.Prelude.{◌≡◌, length, IfOk};
ghost use Rattle.cells.specs.Outcomes.{amount, outcome};
ghost use Rattle.layout.specs.Layout.{LaidIn};
ghost use Rattle.edition.specs.Editions.{other, sheet_cells, converted, output_after};
ghost use Rattle.edition.specs.RoundTrip.{Kept};
ghost use Rattle.edition.specs.Meaning.{Means};

use crate::entries::look_up_ids;
use crate::write::put_sheet;
use cells::cell_at;
use cells::refusals::{Refusal, Refused};
use ir::read::Sheet;
use layout::Edition;
use layout::sheet::sheet_check;

fn other(e: Edition) -> Edition
    ensures { result ≡ other e }
{
    match e {
        Edition::First => Edition::Second,
        Edition::Second => Edition::First,
    }
}

// The other edition needs two cells fewer for each parameter, or two more.
#[tactic(auto, using(crate::proofs::Sheets::counting))]
fn needed(e: Edition, s: &[u8]) -> usize
    requires { LaidIn e s.now }
    ensures { result ≡ length (sheet_cells e (other e) s.now) }
{
    let all = s.len() / 8;
    let params = cell_at(s, 1) as usize;
    match e {
        Edition::First => all - 2 * params,
        Edition::Second => all + 2 * params,
    }
}

// The sheet is of edition `e`. A pass checks its layout, and one looks its ids up. Then a third writes it in the other edition, at the start of `out`, where
// there is room. The answer is the number of cells that were written.
#[tactic(auto, using(crate::proofs::Conversions::converting), unfolding(crate::specs::Editions::output_after))]
pub fn convert(e: Edition, sheet: &[u8], out: &mut [u8]) -> Result<u64, Refused>
    ensures answer { outcome result ≡ amount length (converted e sheet.now (length out.old)) }
    ensures bytes { out.new ≡ output_after (converted e sheet.now (length out.old)) out.old }
    ensures kept { IfOk result (λ n. Kept e sheet.now out.new n) }
    ensures means { IfOk result (λ n. Means e sheet.now out.new n) }
{
    sheet_check(e, sheet)?;
    let sheet = Sheet { bytes: sheet };
    look_up_ids(e, &sheet)?;
    let n = needed(e, sheet.bytes);
    if out.len() / 8 < n {
        return Err(Refused {
            refusal: Refusal::PageFull,
            place: n as u64,
        });
    }
    put_sheet(e, other(e), &sheet, &mut out[..8 * n]);
    Ok(n as u64)
}
