// The conversions between the two editions of a sheet for C.
ghost use Rattle.std.specs.Prelude.{◌≡◌, length};
ghost use Rattle.cells.specs.Outcomes.{number_of, place_of};
ghost use Rattle.edition.specs.Editions.{converted, output_after};
ghost use Rattle.edition.specs.RoundTrip.{Kept};
ghost use Rattle.edition.specs.Meaning.{Means};
ghost use Rattle.engine.specs.Numbers.{IsConversion};

use edition::convert;
use layout::Edition;

// It writes a sheet of edition `e` in the other one, and answers in numbers.
fn to_other(e: Edition, sheet: &[u8], out: &mut [u8], place: &mut u64) -> u64
    ensures number { result ≡ number_of (converted e sheet.now (length out.old)) }
    ensures known { IsConversion result }
    ensures place { place.new ≡ place_of length (converted e sheet.now (length out.old)) }
    ensures bytes { out.new ≡ output_after (converted e sheet.now (length out.old)) out.old }
    ensures lent { sheet.exit.now ≡ sheet.entry.now }
    ensures kept { result ≡ 0 → Kept e sheet.now out.new place.new }
    ensures means { result ≡ 0 → Means e sheet.now out.new place.new }
{
    match convert(e, sheet, out) {
        Ok(count) => {
            *place = count;
            0
        }
        Err(refused) => {
            *place = refused.place;
            u64::from(refused.refusal)
        }
    }
}

// C has a name for each edition.
// It writes a sheet of edition 1 in edition 2. It gives 0, with the number of cells in `place`, or the number of a refusal, with its place.
pub fn gilthoren_to_edition2(sheet: &[u8], out: &mut [u8], place: &mut u64) -> u64
    ensures number { result ≡ number_of (converted Edition.First sheet.now (length out.old)) }
    ensures known { IsConversion result }
    ensures place { place.new ≡ place_of length (converted Edition.First sheet.now (length out.old)) }
    ensures bytes { out.new ≡ output_after (converted Edition.First sheet.now (length out.old)) out.old }
    ensures lent { sheet.exit.now ≡ sheet.entry.now }
    ensures kept { result ≡ 0 → Kept Edition.First sheet.now out.new place.new }
    ensures means { result ≡ 0 → Means Edition.First sheet.now out.new place.new }
{
    to_other(Edition::First, sheet, out, place)
}

// It writes a sheet of edition 2 in edition 1, and answers as the other conversion does.
pub fn gilthoren_to_edition1(sheet: &[u8], out: &mut [u8], place: &mut u64) -> u64
    ensures number { result ≡ number_of (converted Edition.Second sheet.now (length out.old)) }
    ensures known { IsConversion result }
    ensures place { place.new ≡ place_of length (converted Edition.Second sheet.now (length out.old)) }
    ensures bytes { out.new ≡ output_after (converted Edition.Second sheet.now (length out.old)) out.old }
    ensures lent { sheet.exit.now ≡ sheet.entry.now }
    ensures kept { result ≡ 0 → Kept Edition.Second sheet.now out.new place.new }
    ensures means { result ≡ 0 → Means Edition.Second sheet.now out.new place.new }
{
    to_other(Edition::Second, sheet, out, place)
}
