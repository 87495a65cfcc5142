// The plain test for C.
ghost use Rattle.std.specs.Prelude.{◌≡◌, ◌↔◌};
ghost use Rattle.machine.specs.Plain.{Plain, first_fault};
ghost use Rattle.engine.specs.Numbers.{yes_of, fault_of};

use generation::plain_test::plainness;

// The plain test gives 1 for yes, with 0 in `place`; or 0 for no, with the first number at fault.
pub fn gilthoren_plain(tables: &[u8], sheet: &[u8], place: &mut u64) -> u64
    ensures answer { result ≡ yes_of (first_fault tables.now sheet.now) }
    ensures place { place.new ≡ fault_of (first_fault tables.now sheet.now) }
    ensures lent { (tables.exit.now ≡ tables.entry.now) × (sheet.exit.now ≡ sheet.entry.now) }
    ensures plain { result ≡ 1 ↔ Plain tables.now sheet.now }
{
    match plainness(tables, sheet) {
        None => {
            *place = 0;
            1
        }
        Some(number) => {
            *place = number;
            0
        }
    }
}
