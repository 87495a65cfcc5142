// Each case of the list goes through the lowering and the plain test as C calls them.
ghost use Rattle.std.specs.Prelude.{◌≤◌, length};

use crate::list::{EDGE, ROOM, Reader, fill, is_filled_around};
use crate::report::{Difference, Report};
use crate::{ReplayError, zeros};
use engine::lower::gilthoren_lower;
use engine::plain_test::gilthoren_plain;

// There are at most so many records in a case.
const MOST_RECORDS: u64 = 1048576;

#[derive(Clone, Copy)]
struct Case<'a> {
    index: u64,
    tables: &'a [u8],
    sheet: &'a [u8],
}

impl Case<'_> {
    // It is lowered with as much room as the list says, between EDGE bytes before and EDGE behind it, and is held to the list's refusal and place, or 0 and the
    // count of records.
    fn lowering(
        &self,
        list: &mut Reader<'_>,
        records: &mut [u8; ROOM],
        report: &mut Report<'_, impl Print>,
    ) -> Result<(), ReplayError> {
        let end = EDGE + list.lent()?;
        let refusal = list.number()?;
        let place = list.number()?;
        let lent = &mut records[..end + EDGE];
        fill(lent);
        let mut found = 0;
        let number = gilthoren_lower(self.tables, self.sheet, &mut lent[EDGE..end], &mut found);
        report.count_answer(number);
        if (number, found) != (refusal, place) {
            report.difference(self.index, Difference::Answer)?;
        }
        let n = if refusal == 0 { place } else { 0 };
        self.records(n, list, lent, report)
    }

    // The n records are compared, and the bytes before and behind them.
    fn records(
        &self,
        n: u64,
        list: &mut Reader<'_>,
        lent: &[u8],
        report: &mut Report<'_, impl Print>,
    ) -> Result<(), ReplayError>
        requires { 64 ≤ length lent.now }
    {
        if MOST_RECORDS < n {
            return Err(ReplayError::Malformed);
        }
        let count = n as usize;
        if !list.has_cells(8 * count, &lent[EDGE..])? {
            report.difference(self.index, Difference::Records)?;
        }
        if !is_filled_around(EDGE..EDGE + 64 * count, lent) {
            report.difference(self.index, Difference::LentByte)?;
        }
        report.count_records(n);
        Ok(())
    }

    // The plain test is held to the first of the list's faults.
    fn plainness(
        &self,
        list: &mut Reader<'_>,
        report: &mut Report<'_, impl Print>,
    ) -> Result<(), ReplayError> {
        let mut number = 0;
        let plain = gilthoren_plain(self.tables, self.sheet, &mut number) == 1;
        if plain {
            report.count_plain();
        }
        let fault = if plain { None } else { Some(number) };
        if list.first_fault()? != fault {
            report.difference(self.index, Difference::PlainTest)?;
        }
        Ok(())
    }
}

// It runs all the cases, and gives their number.
pub(crate) fn replay_cases(
    list: &mut Reader<'_>,
    report: &mut Report<'_, impl Print>,
) -> Result<u64, ReplayError> {
    let mut tables = zeros::<4096>();
    let mut sheet = zeros::<458752>();
    let mut records = zeros::<ROOM>();
    let n = list.number()?;
    for index in 0..n {
        let case = Case {
            index,
            tables: list.slice(&mut tables)?,
            sheet: list.slice(&mut sheet)?,
        };
        case.lowering(list, &mut records, report)?;
        case.plainness(list, report)?;
    }
    Ok(n)
}
