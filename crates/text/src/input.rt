// The input of the listing program is the count of table cells, the tables and the sheet.
ghost use Rattle.std.specs.Prelude.{◌≡◌};
ghost use Rattle.text.specs.Input.{split_of};

use cells::cell_at;

// An input is too long, or it has no count of table cells that all stand behind it.
#[derive(Clone, Copy, Debug, PartialEq, Eq)]
pub enum InputError {
    TooLong,
    NoTables,
}

// What it gives is a number and no slices, by `split_of`.
// It gives how many cells behind the first are the tables; all bytes behind those are the sheet.
#[tactic(auto, unfolding(crate::specs::Input::split_of))]
pub fn split(input: &[u8]) -> Result<usize, InputError>
    ensures { result ≡ split_of input.now }
{
    if 65536 < input.len() {
        return Err(InputError::TooLong);
    }
    let whole = input.len() / 8;
    if whole == 0 {
        return Err(InputError::NoTables);
    }
    let n = cell_at(input, 0);
    if whole as u64 <= n {
        return Err(InputError::NoTables);
    }
    Ok(n as usize)
}
