// The compact form of the fixed list is read here (vectors/README.md), and slices are filled before a call and looked at behind it.
ghost use Rattle.std.specs.Prelude.{◌+◌, ◌≤◌, IfOk};

use std::ops::Range;

const MAGIC: &[u8] = b"KRCVEC02";

// So many bytes stand in front of those that are lent to be written, and behind them; and there is room for so many, with these.
pub(crate) const EDGE: usize = 64;

pub(crate) const ROOM: usize = 66240;

const MOST_LENT: u64 = (ROOM - 2 * EDGE) as u64;

// The list is not of the form that vectors/README.md has.
#[derive(Clone, Copy)]
pub(crate) struct Malformed;

// It reads the list from its start to its end; `rest` is what is left.
#[derive(Drop)]
pub(crate) struct Reader<'a> {
    rest: &'a [u8],
}

impl<'a> Reader<'a> {
    pub(crate) fn new(list: &'a [u8]) -> Result<Self, Malformed> {
        let rest = list.strip_prefix(MAGIC).ok_or(Malformed)?;
        Ok(Reader { rest })
    }

    fn byte(&mut self) -> Result<u8, Malformed> {
        self.rest.split_off_first().copied().ok_or(Malformed)
    }

    // A number is seven bits a byte, lowest first, with the high bit set on all bytes but the last.
    pub(crate) fn number(&mut self) -> Result<u64, Malformed> {
        let mut value = 0;
        for k in 0..10u32 {
            let byte = u64::from(self.byte()?);
            value |= (byte % 128) << (7 * k);
            if byte < 128 {
                return Ok(value);
            }
        }
        Err(Malformed)
    }

    // It reads how many bytes are lent to be written, for which there must be room.
    pub(crate) fn lent(&mut self) -> Result<usize, Malformed>
        ensures { IfOk result (λ n. n + 128 ≤ 66240) }
    {
        let n = self.number()?;
        if MOST_LENT < n {
            return Err(Malformed);
        }
        Ok(n as usize)
    }

    // A cell is in zigzag code.
    fn cell(&mut self) -> Result<u64, Malformed> {
        let z = self.number()?;
        Ok(if z % 2 == 0 { z / 2 } else { u64::MAX - z / 2 })
    }

    // It reads a slice to the start of `out`, and gives it: cells, and the bytes of a torn last cell.
    pub(crate) fn slice<'b>(&mut self, out: &'b mut [u8]) -> Result<&'b [u8], Malformed> {
        let cells = self.number()?;
        if ((out.len() / 8) as u64) < cells {
            return Err(Malformed);
        }
        let whole = 8 * cells as usize;
        for word in out[..whole].chunks_exact_mut(8) {
            word.copy_from_slice(&self.cell()?.to_le_bytes());
        }
        let torn = usize::from(self.byte()?);
        if 7 < torn || out.len() - whole < torn {
            return Err(Malformed);
        }
        let tail = self.rest.split_off(..torn).ok_or(Malformed)?;
        out[whole..whole + torn].copy_from_slice(tail);
        Ok(&out[..whole + torn])
    }

    // It says whether the next numbers are these.
    pub(crate) fn has_numbers(&mut self, wanted: &[u64]) -> Result<bool, Malformed> {
        let mut same = true;
        for number in wanted {
            same &= self.number()? == *number;
        }
        Ok(same)
    }

    // It says whether the next n cells are those at the start of `bytes`.
    pub(crate) fn has_cells(&mut self, n: usize, bytes: &[u8]) -> Result<bool, Malformed> {
        let (words, _) = bytes.as_chunks::<8>();
        let mut same = true;
        for k in 0..n {
            let cell = self.cell()?.to_le_bytes();
            same &= words.get(k) == Some(&cell);
        }
        Ok(same)
    }

    // It reads the numbers at fault, which stand behind their count, and gives the first.
    pub(crate) fn first_fault(&mut self) -> Result<Option<u64>, Malformed> {
        let mut first = None;
        for _ in 0..self.number()? {
            let number = self.number()?;
            first = first.or(Some(number));
        }
        Ok(first)
    }

    // Nothing is left.
    pub(crate) fn end(&self) -> Result<(), Malformed> {
        if self.rest.is_empty() {
            Ok(())
        } else {
            Err(Malformed)
        }
    }
}

// Before a call the bytes that are lent count up from 0, and begin anew behind so many.
const FILLERS: usize = 251;

fn filler(k: usize) -> u8 {
    (k % FILLERS) as u8
}

pub(crate) fn fill(bytes: &mut [u8]) {
    for part in bytes.chunks_mut(FILLERS) {
        for (k, byte) in part.iter_mut().enumerate() {
            *byte = k as u8;
        }
    }
}

// It says whether the bytes at these places stand as they were filled in.
fn is_filled(places: Range<usize>, bytes: &[u8]) -> bool {
    for k in places {
        if bytes.get(k) != Some(&filler(k)) {
            return false;
        }
    }
    true
}

// It says whether all bytes but those of `written`, which are not looked at, stand as they were filled in.
pub(crate) fn is_filled_around(written: Range<usize>, bytes: &[u8]) -> bool {
    is_filled(0..written.start, bytes) && is_filled(written.end..bytes.len(), bytes)
}
