// The totals of a pack for C.
ghost use Rattle.std.specs.Prelude.{◌≡◌};
ghost use Rattle.cells.specs.Outcomes.{number_of, place_of};
ghost use Rattle.totals.specs.Totals.{pack_totals, records_of, refused_of};
ghost use Rattle.engine.specs.Numbers.{IsTotalsNumber};

use totals::pack_totals;

// It gives 0, with the number of records of the sheets that lower in `records`, and the number of sheets that are refused in `refused`; or the number of a
// refusal of the pack, with its place, and 0 in both.
pub fn gilthoren_pack_totals(
    tables: &[u8],
    pack: &[u8],
    place: &mut u64,
    records: &mut u64,
    refused: &mut u64,
) -> u64
    ensures number { result ≡ number_of (pack_totals tables.now pack.now) }
    ensures known { IsTotalsNumber result }
    ensures place { place.new ≡ place_of (λ t. 0) (pack_totals tables.now pack.now) }
    ensures records { records.new ≡ records_of (pack_totals tables.now pack.now) }
    ensures refused { refused.new ≡ refused_of (pack_totals tables.now pack.now) }
    ensures lent { (tables.exit.now ≡ tables.entry.now) × (pack.exit.now ≡ pack.entry.now) }
{
    match pack_totals(tables, pack) {
        Ok(totals) => {
            *place = 0;
            *records = totals.records;
            *refused = totals.refused;
            0
        }
        Err(bad) => {
            *place = bad.place;
            *records = 0;
            *refused = 0;
            u64::from(bad.refusal)
        }
    }
}
