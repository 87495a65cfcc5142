// A cell is eight bytes of a lent slice, little-endian. It is held as a u64; a negative number is its two's complement pattern.
#![tactic(auto)]

pub mod refusals;

ghost use Rattle.std.specs.Prelude.{◌≡◌, ◌+◌, ◌*◌, ◌≤◌, ◌<◌, length};
ghost use Rattle.cells.specs.Cells.{word, cells, cell_at, read_cell, read_within, bytes_of, write};

// It reads the eight bytes from `at` as a number.
fn word_at(s: &[u8], at: usize) -> u64
    requires { at + 8 ≤ length s.now }
    ensures { result ≡ word s.now at }
{
    u64::from_le_bytes([
        s[at],
        s[at + 1],
        s[at + 2],
        s[at + 3],
        s[at + 4],
        s[at + 5],
        s[at + 6],
        s[at + 7],
    ])
}

// It reads cell k of a slice that has it.
pub fn cell_at(s: &[u8], k: usize) -> u64
    requires { k < cells s.now }
    ensures { result ≡ cell_at s.now k }
{
    word_at(s, k * 8)
}

// It says where the next cell is read, by its number in the slice, from 0.
#[derive(Clone, Copy, Debug, PartialEq, Eq)]
pub struct Cursor {
    pub at: usize,
}

// This cell of a slice is missing, torn or wrong.
#[derive(Clone, Copy, Debug, PartialEq, Eq)]
pub struct WrongCell {
    pub cell: usize,
}

impl Cursor {
    pub fn new(at: usize) -> Self
        ensures { result.at ≡ at }
    {
        Self { at }
    }

    // Reading finds the cell and the cursor behind it.
    #[tactic(auto, unfolding(crate::specs::Cells::read_cell))]
    pub fn cell(self, s: &[u8]) -> Result<(u64, Cursor), WrongCell>
        ensures { result ≡ read_cell s.now self }
    {
        let k = self.at;
        if k < s.len() / 8 {
            Ok((cell_at(s, k), Cursor { at: k + 1 }))
        } else {
            Err(WrongCell { cell: k })
        }
    }

    // It gives the cell where its number is from `low` to `high`. Another number makes it a wrong cell, as a missing one is.
    #[tactic(auto, unfolding(crate::specs::Cells::read_within))]
    pub fn within(self, s: &[u8], low: u64, high: u64) -> Result<(u64, Cursor), WrongCell>
        ensures { result ≡ read_within s.now self low high }
    {
        let (v, next) = self.cell(s)?;
        if v < low || high < v {
            return Err(WrongCell { cell: self.at });
        }
        Ok((v, next))
    }
}

// It stores a number as the eight bytes from `at`; every other byte stays.
pub fn put_word(out: &mut [u8], at: usize, v: u64)
    requires { at + 8 ≤ length out.old }
    ensures { out.new ≡ write out.old at (bytes_of v) }
{
    out[at..at + 8].copy_from_slice(&v.to_le_bytes());
}
