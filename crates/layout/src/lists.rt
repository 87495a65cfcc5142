// The variable types and the parameters of a sheet are checked one after the other.
ghost use Rattle.std.specs.Prelude.{◌≡◌};
ghost use Rattle.layout.specs.Layout.{types_check, params_in};

use crate::Edition;
use crate::limits::MOST_COUNT;
use crate::parts::{each, oversize, param_check, type_check};
use cells::Cursor;
use cells::refusals::Refused;
use ir::read::type_at;
use ir::types::offset_behind;

// An offset stays within its limit: the count cell of the variable that first passes it is refused.
pub(crate) fn types_check(s: &[u8], n: u64, c: Cursor) -> Result<Cursor, Refused>
    ensures { result ≡ types_check s.now n 0 c }
{
    let mut end: u64 = 0;
    let mut here = c;
    for _ in 0..n {
        let next = type_check(s, here)?;
        end = offset_behind(end, type_at(s, here.at));
        if MOST_COUNT < end {
            return Err(oversize(here.at + 1));
        }
        here = next;
    }
    Ok(here)
}

pub(crate) fn params_check(e: Edition, s: &[u8], n: u64, c: Cursor) -> Result<Cursor, Refused>
    ensures { result ≡ params_in e s.now n c }
{
    each(n, c, |here| param_check(e, s, here))
}
