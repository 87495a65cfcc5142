// A sheet is checked from its first cell to its last: the head, which is all before its instructions, and then these.
ghost use Rattle.std.specs.Prelude.{◌≡◌};
ghost use Rattle.layout.specs.Layout.{rest_in, head_in, sheet_in};

use crate::Edition;
use crate::instrs::instrs_check;
use crate::limits::{MOST_INSTRUCTIONS, MOST_LABELS, MOST_PARAMETERS, MOST_VARIABLES};
use crate::lists::{params_check, types_check};
use crate::parts::{end_check, limited, return_check};
use cells::Cursor;
use cells::refusals::{Refusal, Refused};

// The return type and the number of instructions come before the variable types and the parameters.
#[tactic(auto, unfolding(crate::specs::Layout::rest_in))]
fn rest_head(
    e: Edition,
    s: &[u8],
    vars: u64,
    params: u64,
    c: Cursor,
) -> Result<(u64, Cursor), Refused>
    ensures { result ≡ rest_in e s.now vars params c }
{
    let c1 = return_check(s, c)?;
    let (instrs, c2) = limited(s, c1, MOST_INSTRUCTIONS)?;
    let c3 = types_check(s, vars, c2)?;
    let c4 = params_check(e, s, params, c3)?;
    Ok((instrs, c4))
}

// The answer is the number of instructions and the cursor of the first.
#[tactic(auto, unfolding(crate::specs::Layout::head_in))]
pub fn head_check(e: Edition, s: &[u8]) -> Result<(u64, Cursor), Refused>
    ensures { result ≡ head_in e s.now }
{
    let (vars, c1) = limited(s, Cursor { at: 0 }, MOST_VARIABLES)?;
    let (params, c2) = limited(s, c1, MOST_PARAMETERS)?;
    let (_, c3) = limited(s, c2, MOST_LABELS)?;
    rest_head(e, s, vars, params, c3)
}

// The lowering checks and counts in one pass, by `head_check` and `instr_check`, and does not come here.
#[tactic(auto, unfolding(crate::specs::Layout::sheet_in))]
pub fn sheet_check(e: Edition, s: &[u8]) -> Result<Cursor, Refused>
    ensures { result ≡ sheet_in e s.now }
{
    let (instrs, c) = head_check(e, s)?;
    let end = instrs_check(e, s, instrs, c)?;
    end_check(Refusal::TornSheet, s, end)
}
