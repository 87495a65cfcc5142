// The static library that C links: each export calls the function of its name in `engine`, and promises what that does. include/gilthoren.h has the C side, where
// a slice is a pointer and then its length in bytes.
#![tactic(auto)]

ghost use Rattle.std.specs.Prelude.{◌≡◌, length, ◌↔◌, take, drop};
ghost use Rattle.codegen.specs.Generation.{lowered, records_after};
ghost use Rattle.machine.specs.Plain.{Plain, first_fault};
ghost use Rattle.machine.specs.Calls.{Demand2};
ghost use Rattle.machine.specs.Simulation.{Demand3};
ghost use Rattle.cells.specs.Outcomes.{number_of, place_of, accepted};
ghost use Rattle.engine.specs.Numbers.{IsNumber, yes_of, fault_of, IsLookUpNumber, IsPackNumber, IsTotalsNumber, IsConversion};
ghost use Rattle.pack.specs.Pack.{find_pair, look_up, start_of, size_of, sheet_at, lowered_in};
ghost use Rattle.totals.specs.Totals.{pack_totals, records_of, refused_of};
ghost use Rattle.edition.specs.Editions.{converted, output_after};
ghost use Rattle.edition.specs.RoundTrip.{Kept};
ghost use Rattle.edition.specs.Meaning.{Means};

use layout::Edition;

// It lowers the sheet. It gives 0, with the number of records in `place`, or the number of a refusal, with its place.
#[unsafe(no_mangle)]
pub extern "C" fn gilthoren_lower(
    tables: &[u8],
    sheet: &[u8],
    records: &mut [u8],
    place: &mut u64,
) -> u64
    ensures number { result ≡ number_of (lowered tables.now sheet.now (length records.old)) }
    ensures known { IsNumber result }
    ensures place { place.new ≡ place_of length (lowered tables.now sheet.now (length records.old)) }
    ensures bytes { records.new ≡ records_after (lowered tables.now sheet.now (length records.old)) records.old }
    ensures lent { (tables.exit.now ≡ tables.entry.now) × (sheet.exit.now ≡ sheet.entry.now) }
    ensures demand2 { result ≡ 0 → Demand2 tables.now sheet.now records.new place.new }
    ensures demand3 { result ≡ 0 → Plain tables.now sheet.now → Demand3 tables.now sheet.now records.new place.new }
{
    engine::lower::gilthoren_lower(tables, sheet, records, place)
}

// The plain test gives 1 for yes, with 0 in `place`; or 0 for no, with the first number at fault.
#[unsafe(no_mangle)]
pub extern "C" fn gilthoren_plain(tables: &[u8], sheet: &[u8], place: &mut u64) -> u64
    ensures answer { result ≡ yes_of (first_fault tables.now sheet.now) }
    ensures place { place.new ≡ fault_of (first_fault tables.now sheet.now) }
    ensures lent { (tables.exit.now ≡ tables.entry.now) × (sheet.exit.now ≡ sheet.entry.now) }
    ensures plain { result ≡ 1 ↔ Plain tables.now sheet.now }
{
    engine::plain_test::gilthoren_plain(tables, sheet, place)
}

// It gives 0, with the first byte of the sheet of this number, from 0, in `from` and its bytes in `length`; or the number of a refusal, with its place, and 0
// in both.
#[unsafe(no_mangle)]
pub extern "C" fn gilthoren_pack_sheet(
    pack: &[u8],
    number: u64,
    place: &mut u64,
    from: &mut u64,
    length: &mut u64,
) -> u64
    ensures number { result ≡ number_of (find_pair pack.now number) }
    ensures known { IsLookUpNumber result }
    ensures place { place.new ≡ place_of (λ pair. 0) (find_pair pack.now number) }
    ensures from { from.new ≡ start_of (find_pair pack.now number) }
    ensures length { «length».new ≡ size_of (find_pair pack.now number) }
    ensures part { result ≡ 0 → look_up pack.now number ≡ accepted (take «length».new (drop from.new pack.now)) }
    ensures lent { pack.exit.now ≡ pack.entry.now }
{
    engine::pack_sheet::gilthoren_pack_sheet(pack, number, place, from, length)
}

// It lowers the sheet of this number, from 0, where it stands in the pack. A refusal of the pack or of the number comes before those of the lowering.
#[unsafe(no_mangle)]
pub extern "C" fn gilthoren_pack_lower(
    tables: &[u8],
    pack: &[u8],
    number: u64,
    records: &mut [u8],
    place: &mut u64,
) -> u64
    ensures number { result ≡ number_of (lowered_in tables.now pack.now number (length records.old)) }
    ensures known { IsPackNumber result }
    ensures place { place.new ≡ place_of length (lowered_in tables.now pack.now number (length records.old)) }
    ensures bytes { records.new ≡ records_after (lowered_in tables.now pack.now number (length records.old)) records.old }
    ensures lent { (tables.exit.now ≡ tables.entry.now) × (pack.exit.now ≡ pack.entry.now) }
    ensures demand2 { result ≡ 0 → Demand2 tables.now (sheet_at pack.now number) records.new place.new }
    ensures demand3 { result ≡ 0 → Plain tables.now (sheet_at pack.now number) → Demand3 tables.now (sheet_at pack.now number) records.new place.new }
{
    engine::pack_lower::gilthoren_pack_lower(tables, pack, number, records, place)
}

// It gives 0, with the number of records of the sheets that lower in `records`, and the number of sheets that are refused in `refused`; or the number of a
// refusal of the pack, with its place, and 0 in both.
#[unsafe(no_mangle)]
pub extern "C" fn gilthoren_pack_totals(
    tables: &[u8],
    pack: &[u8],
    place: &mut u64,
    records: &mut u64,
    refused: &mut u64,
) -> u64
    ensures number { result ≡ number_of (pack_totals tables.now pack.now) }
    ensures known { IsTotalsNumber result }
    ensures place { place.new ≡ place_of (λ t. 0) (pack_totals tables.now pack.now) }
    ensures records { records.new ≡ records_of (pack_totals tables.now pack.now) }
    ensures refused { refused.new ≡ refused_of (pack_totals tables.now pack.now) }
    ensures lent { (tables.exit.now ≡ tables.entry.now) × (pack.exit.now ≡ pack.entry.now) }
{
    engine::pack_totals::gilthoren_pack_totals(tables, pack, place, records, refused)
}

// It writes a sheet of edition 1 in edition 2. It gives 0, with the number of cells in `place`, or the number of a refusal, with its place.
#[unsafe(no_mangle)]
pub extern "C" fn gilthoren_to_edition2(sheet: &[u8], out: &mut [u8], place: &mut u64) -> u64
    ensures number { result ≡ number_of (converted Edition.First sheet.now (length out.old)) }
    ensures known { IsConversion result }
    ensures place { place.new ≡ place_of length (converted Edition.First sheet.now (length out.old)) }
    ensures bytes { out.new ≡ output_after (converted Edition.First sheet.now (length out.old)) out.old }
    ensures lent { sheet.exit.now ≡ sheet.entry.now }
    ensures kept { result ≡ 0 → Kept Edition.First sheet.now out.new place.new }
    ensures means { result ≡ 0 → Means Edition.First sheet.now out.new place.new }
{
    engine::editions::gilthoren_to_edition2(sheet, out, place)
}

// It writes a sheet of edition 2 in edition 1, and answers as the other conversion does.
#[unsafe(no_mangle)]
pub extern "C" fn gilthoren_to_edition1(sheet: &[u8], out: &mut [u8], place: &mut u64) -> u64
    ensures number { result ≡ number_of (converted Edition.Second sheet.now (length out.old)) }
    ensures known { IsConversion result }
    ensures place { place.new ≡ place_of length (converted Edition.Second sheet.now (length out.old)) }
    ensures bytes { out.new ≡ output_after (converted Edition.Second sheet.now (length out.old)) out.old }
    ensures lent { sheet.exit.now ≡ sheet.entry.now }
    ensures kept { result ≡ 0 → Kept Edition.Second sheet.now out.new place.new }
    ensures means { result ≡ 0 → Means Edition.Second sheet.now out.new place.new }
{
    engine::editions::gilthoren_to_edition1(sheet, out, place)
}
