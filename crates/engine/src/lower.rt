// The lowering for C.
ghost use Rattle.std.specs.Prelude.{◌≡◌, length};
ghost use Rattle.codegen.specs.Generation.{lowered, records_after};
ghost use Rattle.machine.specs.Plain.{Plain};
ghost use Rattle.machine.specs.Calls.{Demand2};
ghost use Rattle.machine.specs.Simulation.{Demand3};
ghost use Rattle.cells.specs.Outcomes.{number_of, place_of};
ghost use Rattle.engine.specs.Numbers.{IsNumber};

use generation::generate;

// It lowers the sheet. It gives 0, with the number of records in `place`, or the number of a refusal, with its place.
pub fn gilthoren_lower(tables: &[u8], sheet: &[u8], records: &mut [u8], place: &mut u64) -> u64
    ensures number { result ≡ number_of (lowered tables.now sheet.now (length records.old)) }
    ensures known { IsNumber result }
    ensures place { place.new ≡ place_of length (lowered tables.now sheet.now (length records.old)) }
    ensures bytes { records.new ≡ records_after (lowered tables.now sheet.now (length records.old)) records.old }
    ensures lent { (tables.exit.now ≡ tables.entry.now) × (sheet.exit.now ≡ sheet.entry.now) }
    ensures demand2 { result ≡ 0 → Demand2 tables.now sheet.now records.new place.new }
    ensures demand3 { result ≡ 0 → Plain tables.now sheet.now → Demand3 tables.now sheet.now records.new place.new }
{
    match generate(tables, sheet, records) {
        Ok(count) => {
            *place = count;
            0
        }
        Err(refused) => {
            *place = refused.place;
            u64::from(refused.refusal)
        }
    }
}
