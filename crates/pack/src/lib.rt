// A shop's sheets travel in one pack: a sheet count, for each sheet a pair of offset and length in cells, and the sheets one behind the other.
#![tactic(auto)]

ghost use Rattle.std.specs.Prelude.{◌≡◌, ◌+◌, ◌*◌, ◌≤◌, ◌<◌, length, IfOk};
ghost use Rattle.cells.specs.Cells.{cells};
ghost use Rattle.cells.specs.Outcomes.{outcome, number_of, place_of};
ghost use Rattle.cells.specs.declared.refusals.Refusal.{Refusal};
ghost use Rattle.layout.specs.Layout.{refused_at};
ghost use Rattle.pack.specs.Pack.{read_in, pair_check, pairs_check, pack_check, Checks, sheet_count, offset_at, pair_at, part_at, moved, sheet_at, find_pair, start_of, look_up, part_of};

use cells::refusals::{Refusal, Refused};
use cells::{Cursor, cell_at};
use layout::limits::MOST_SHEETS;
use layout::parts::{LARGEST, end_check};

// It says where a sheet stands in its pack, and how many cells it has.
#[derive(Clone, Copy, Debug, PartialEq, Eq)]
pub struct Pair {
    pub offset: u64,
    pub length: u64,
}

fn bad_pack(cell: usize) -> Refused
    ensures { result ≡ refused_at Refusal.BadPack cell }
{
    Refused {
        refusal: Refusal::BadPack,
        place: cell as u64,
    }
}

// It reads a cell from `low` to `high`. Any other is refused by 13.
fn read(p: &[u8], c: Cursor, low: u64, high: u64) -> Result<(u64, Cursor), Refused>
    ensures value { result ≡ read_in p.now c low high }
    ensures upper_bound { IfOk result (λ x. x.0 ≤ high) }
{
    match c.within(p, low, high) {
        Ok((v, next)) => Ok((v, next)),
        Err(wrong) => Err(bad_pack(wrong.cell)),
    }
}

// The sheet of a pair must stand at cell `start`. It gives the cell behind that sheet, and the cursor of the next pair.
#[tactic(auto, unfolding(crate::specs::Pack::pair_check))]
fn pair_check(p: &[u8], start: usize, c: Cursor) -> Result<(usize, Cursor), Refused>
    requires { start ≤ 513 + cells p.now }
    ensures value { result ≡ pair_check p.now start c }
    ensures upper_bound { IfOk result (λ x. x.0 ≤ 513 + cells p.now) }
{
    let (_, second) = read(p, c, start as u64, start as u64)?;
    let (size, next) = read(p, second, 0, LARGEST)?;
    let behind = start + size as usize;
    if p.len() / 8 < behind {
        return Err(bad_pack(second.at));
    }
    Ok((behind, next))
}

// It checks `n` pairs from the cursor on, whose first sheet stands at cell `from`, and that nothing is left behind the last sheet.
fn pairs_check(p: &[u8], n: u64, from: usize, c: Cursor) -> Result<Cursor, Refused>
    requires { from ≤ 513 }
    ensures { result ≡ pairs_check p.now n from c }
{
    let mut start = from;
    let mut here = c;
    for _ in 0..n {
        (start, here) = pair_check(p, start, here)?;
    }
    end_check(Refusal::BadPack, p, Cursor { at: start })
}

// It checks the layout of a pack. The first wrong cell in reading order is refused by 13.
#[tactic(auto, unfolding(crate::specs::Pack::pack_check))]
pub fn pack_check(p: &[u8]) -> Result<Cursor, Refused>
    ensures { result ≡ pack_check p.now }
{
    let (count, next) = read(p, Cursor { at: 0 }, 1, MOST_SHEETS)?;
    pairs_check(p, count, 1 + 2 * count as usize, next)
}

// It reads the pair of sheet k.
fn pair_at(pack: &[u8], k: usize) -> Pair
    requires { 2 + 2 * k < cells pack.now }
    ensures { result ≡ pair_at pack.now k }
{
    Pair {
        offset: cell_at(pack, 1 + 2 * k),
        length: cell_at(pack, 2 + 2 * k),
    }
}

// It is the part of the pack at a pair's offset and length.
fn part(pack: &[u8], pair: Pair) -> &[u8]
    requires { (pair.offset + pair.length) * 8 ≤ length pack.now }
    ensures part { result.now ≡ part_at pack.now pair }
    ensures own { result.ref_ptr ≡ moved pack.entry.ref_ptr (pair.offset * 8) }
{
    let from = pair.offset as usize * 8;
    let to = from + pair.length as usize * 8;
    &pack[from..to]
}

// It is sheet k of a pack whose layout is right.
pub fn sheet_at(pack: &[u8], k: usize) -> &[u8]
    requires { Checks pack.now × (k < sheet_count pack.now) }
    ensures part { result.now ≡ sheet_at pack.now k }
    ensures own { result.ref_ptr ≡ moved pack.entry.ref_ptr (offset_at pack.now k * 8) }
{
    part(pack, pair_at(pack, k))
}

// It finds the pair of a sheet by its number, from 0. A bad pack is refused by 13 before the number is looked at.
pub fn find(pack: &[u8], number: u64) -> Result<Pair, Refused>
    ensures { outcome result ≡ find_pair pack.now number }
{
    pack_check(pack)?;
    if cell_at(pack, 0) <= number {
        return Err(Refused {
            refusal: Refusal::NoEntry,
            place: 0,
        });
    }
    Ok(pair_at(pack, number as usize))
}

// It hands back the sheet's own bytes in the pack, with 0 in `refusal` and in `place`; or an empty part, with the number of the refusal and its place. It is
// no Result, since what is handed back is a part of the pack in both cases.
pub fn sheet<'a>(pack: &'a [u8], number: u64, refusal: &mut u64, place: &mut u64) -> &'a [u8]
    ensures part { result.now ≡ part_of (look_up pack.now number) }
    ensures own { result.ref_ptr ≡ moved pack.entry.ref_ptr (start_of (find_pair pack.now number)) }
    ensures refusal { refusal.new ≡ number_of (look_up pack.now number) }
    ensures place { place.new ≡ place_of (λ s. 0) (look_up pack.now number) }
{
    match find(pack, number) {
        Ok(pair) => {
            *refusal = 0;
            *place = 0;
            part(pack, pair)
        }
        Err(refused) => {
            *refusal = u64::from(refused.refusal);
            *place = refused.place;
            &pack[0..0]
        }
    }
}
