// The look-up of a sheet in a pack for C.
ghost use Rattle.std.specs.Prelude.{◌≡◌, take, drop};
ghost use Rattle.cells.specs.Outcomes.{accepted, number_of, place_of};
ghost use Rattle.pack.specs.Pack.{find_pair, look_up, start_of, size_of};
ghost use Rattle.engine.specs.Numbers.{IsLookUpNumber};

use pack::find;

// It gives 0, with the first byte of the sheet of this number, from 0, in `from` and its bytes in `length`; or the number of a refusal, with its place, and 0
// in both.
pub fn gilthoren_pack_sheet(
    pack: &[u8],
    number: u64,
    place: &mut u64,
    from: &mut u64,
    length: &mut u64,
) -> u64
    ensures number { result ≡ number_of (find_pair pack.now number) }
    ensures known { IsLookUpNumber result }
    ensures place { place.new ≡ place_of (λ pair. 0) (find_pair pack.now number) }
    ensures from { from.new ≡ start_of (find_pair pack.now number) }
    ensures length { «length».new ≡ size_of (find_pair pack.now number) }
    ensures part { result ≡ 0 → look_up pack.now number ≡ accepted (take «length».new (drop from.new pack.now)) }
    ensures lent { pack.exit.now ≡ pack.entry.now }
{
    match find(pack, number) {
        Ok(pair) => {
            *place = 0;
            *from = pair.offset * 8;
            *length = pair.length * 8;
            0
        }
        Err(refused) => {
            *place = refused.place;
            *from = 0;
            *length = 0;
            u64::from(refused.refusal)
        }
    }
}
