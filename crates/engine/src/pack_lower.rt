// The lowering of a sheet of a pack for C.
ghost use Rattle.std.specs.Prelude.{◌≡◌, length};
ghost use Rattle.codegen.specs.Generation.{records_after};
ghost use Rattle.machine.specs.Plain.{Plain};
ghost use Rattle.machine.specs.Calls.{Demand2};
ghost use Rattle.machine.specs.Simulation.{Demand3};
ghost use Rattle.cells.specs.Outcomes.{number_of, place_of};
ghost use Rattle.pack.specs.Pack.{sheet_at, lowered_in};
ghost use Rattle.engine.specs.Numbers.{IsPackNumber};

use crate::lower::gilthoren_lower;
use pack::sheet;

// It lowers the sheet of this number, from 0, where it stands in the pack. A refusal of the pack or of the number comes before those of the lowering.
pub fn gilthoren_pack_lower(
    tables: &[u8],
    pack: &[u8],
    number: u64,
    records: &mut [u8],
    place: &mut u64,
) -> u64
    ensures number { result ≡ number_of (lowered_in tables.now pack.now number (length records.old)) }
    ensures known { IsPackNumber result }
    ensures place { place.new ≡ place_of length (lowered_in tables.now pack.now number (length records.old)) }
    ensures bytes { records.new ≡ records_after (lowered_in tables.now pack.now number (length records.old)) records.old }
    ensures lent { (tables.exit.now ≡ tables.entry.now) × (pack.exit.now ≡ pack.entry.now) }
    ensures demand2 { result ≡ 0 → Demand2 tables.now (sheet_at pack.now number) records.new place.new }
    ensures demand3 { result ≡ 0 → Plain tables.now (sheet_at pack.now number) → Demand3 tables.now (sheet_at pack.now number) records.new place.new }
{
    // A number, as `sheet` answers: it hands back a part of the pack on a refusal too.
    let mut refusal: u64 = 0;
    let found = sheet(pack, number, &mut refusal, place);
    if 0 < refusal {
        return refusal;
    }
    gilthoren_lower(tables, found, records, place)
}
