// The calls of the other exports: each is lent what the list says, and is held to the list's answer and to every byte that it is lent to write.
use crate::list::{EDGE, Malformed, ROOM, Reader, fill};
use crate::report::{Difference, Report};
use crate::{ReplayError, zeros};
use engine::editions::{gilthoren_to_edition1, gilthoren_to_edition2};
use engine::pack_lower::gilthoren_pack_lower;
use engine::pack_sheet::gilthoren_pack_sheet;
use engine::pack_totals::gilthoren_pack_totals;

#[derive(Clone, Copy)]
enum Export {
    PackSheet,
    PackLower,
    PackTotals,
    ToEdition2,
    ToEdition1,
}

impl TryFrom<u64> for Export {
    type Error = Malformed;

    fn try_from(number: u64) -> Result<Self, Malformed> {
        match number {
            0 => Ok(Export::PackSheet),
            1 => Ok(Export::PackLower),
            2 => Ok(Export::PackTotals),
            3 => Ok(Export::ToEdition2),
            4 => Ok(Export::ToEdition1),
            _ => Err(Malformed),
        }
    }
}

// An export is lent bytes of `out` to write, behind EDGE others; after the call all must be as in `wanted`.
#[derive(Drop)]
struct Output {
    out: [u8; ROOM],
    wanted: [u8; ROOM],
}

impl Output {
    // It reads how many bytes are lent, and what they start with, and gives them.
    fn lend(&mut self, list: &mut Reader<'_>) -> Result<&mut [u8], Malformed> {
        let end = EDGE + list.lent()?;
        fill(&mut self.out);
        list.slice(&mut self.out[EDGE..])?;
        self.wanted.copy_from_slice(&self.out);
        Ok(&mut self.out[EDGE..end])
    }

    // The list has the answer, a number, and what the bytes that were lent start with after the call; all others stand as before.
    fn is_held(
        &mut self,
        list: &mut Reader<'_>,
        answer: u64,
        place: u64,
    ) -> Result<bool, Malformed> {
        let same = list.has_numbers(&[answer, place])?;
        list.slice(&mut self.wanted[EDGE..])?;
        Ok(same && self.out == self.wanted)
    }
}

// It has room for what the exports read and write.
#[derive(Drop)]
struct Room {
    tables: [u8; 4096],
    sheet: [u8; 458752],
    output: Output,
}

impl Room {
    // It makes the next call, and says whether it went as the list has it.
    fn call(&mut self, list: &mut Reader<'_>) -> Result<bool, Malformed> {
        match Export::try_from(list.number()?)? {
            Export::PackSheet => self.pack_sheet(list),
            Export::PackLower => self.pack_lower(list),
            Export::PackTotals => self.pack_totals(list),
            Export::ToEdition2 => self.conversion(list, gilthoren_to_edition2),
            Export::ToEdition1 => self.conversion(list, gilthoren_to_edition1),
        }
    }

    // The list has a pack and a number; then the answer, and three numbers.
    fn pack_sheet(&mut self, list: &mut Reader<'_>) -> Result<bool, Malformed> {
        let pack = list.slice(&mut self.sheet)?;
        let sheet = list.number()?;
        let (mut place, mut from, mut length) = (0, 0, 0);
        let answer = gilthoren_pack_sheet(pack, sheet, &mut place, &mut from, &mut length);
        list.has_numbers(&[answer, place, from, length])
    }

    // The list has tables, a pack, a number and the bytes that are lent; then the answer, a number, and what is written.
    fn pack_lower(&mut self, list: &mut Reader<'_>) -> Result<bool, Malformed> {
        let tables = list.slice(&mut self.tables)?;
        let pack = list.slice(&mut self.sheet)?;
        let sheet = list.number()?;
        let records = self.output.lend(list)?;
        let mut place = 0;
        let answer = gilthoren_pack_lower(tables, pack, sheet, records, &mut place);
        self.output.is_held(list, answer, place)
    }

    // The list has tables and a pack; then the answer, and three numbers.
    fn pack_totals(&mut self, list: &mut Reader<'_>) -> Result<bool, Malformed> {
        let tables = list.slice(&mut self.tables)?;
        let pack = list.slice(&mut self.sheet)?;
        let (mut place, mut records, mut refused) = (0, 0, 0);
        let answer = gilthoren_pack_totals(tables, pack, &mut place, &mut records, &mut refused);
        list.has_numbers(&[answer, place, records, refused])
    }

    // The list has a sheet and the bytes that are lent; then the answer, a number, and what is written.
    fn conversion<F: Fn(&[u8], &mut [u8], &mut u64) -> u64>(
        &mut self,
        list: &mut Reader<'_>,
        convert: F,
    ) -> Result<bool, Malformed>
        requires { F.IsAlwaysCallable convert }
    {
        let sheet = list.slice(&mut self.sheet)?;
        let out = self.output.lend(list)?;
        let mut place = 0;
        let answer = convert(sheet, out, &mut place);
        self.output.is_held(list, answer, place)
    }
}

// It makes all the calls, and gives their number.
pub(crate) fn replay_calls(
    list: &mut Reader<'_>,
    report: &mut Report<'_, impl Print>,
) -> Result<u64, ReplayError> {
    let mut room = Room {
        tables: zeros(),
        sheet: zeros(),
        output: Output {
            out: zeros(),
            wanted: zeros(),
        },
    };
    let n = list.number()?;
    for index in 0..n {
        if !room.call(list)? {
            report.difference(index, Difference::Call)?;
        }
    }
    Ok(n)
}
