// An instruction is its position in Krc's `Instr`, its operation, dest (3 cells), left (4) and right (4); a call's arguments follow.
ghost use Rattle.std.specs.Prelude.{◌≡◌, ◌≤◌, cond, eqb, Ok};
ghost use Rattle.layout.specs.Layout.{operation_most, has_dest, has_left, dest_in, call_check, body_in, instr_in, instrs_in};
ghost use Rattle.layout.specs.Sides.{sides_of, unused_of};

use crate::Edition;
use crate::limits::MOST_ARGUMENTS;
use crate::parts::{LARGEST, each, limited, operands_check, torn, var_check, zeros_check};
use cells::Cursor;
use cells::refusals::Refused;

// Each kind has an arm of its own, so that the match becomes a table.
fn operation_most(kind: u64) -> u64
    ensures { result ≡ operation_most kind }
{
    match kind {
        1 => 2,
        2 => 17,
        5 => 1,
        6 => LARGEST,
        7 => LARGEST,
        8 => LARGEST,
        _ => 0,
    }
}

// The first five kinds have a dest, and a call whose operation is 1.
pub fn has_dest(kind: u64, operation: u64) -> bool
    ensures { result ≡ has_dest kind operation }
{
    kind < 5 || kind == 5 && operation == 1
}

// One-operand kinds use left, and a Binary.
pub fn has_left(kind: u64) -> bool
    ensures { result ≡ has_left kind }
{
    kind < 4 || matches!(kind, 8 | 9)
}

#[tactic(auto, unfolding(crate::specs::Layout::dest_in))]
fn dest_check(e: Edition, s: &[u8], has: bool, c: Cursor) -> Result<Cursor, Refused>
    ensures { result ≡ dest_in e s.now has c }
{
    if has {
        var_check(e, s, c)
    } else {
        zeros_check(s, 3, c)
    }
}

fn sides_of(kind: u64) -> u64
    ensures value { result ≡ sides_of kind }
    ensures upper_bound { result ≤ 2 }
{
    if kind == 2 {
        return 2;
    }
    if has_left(kind) { 1 } else { 0 }
}

fn unused_of(kind: u64) -> u64
    ensures { result ≡ unused_of kind }
{
    if kind == 5 {
        return 0;
    }
    8 - 4 * sides_of(kind)
}

// A call has symbol number and argument count in left's first two cells.
#[tactic(auto, unfolding(crate::specs::Layout::call_check))]
fn call_check(s: &[u8], c: Cursor) -> Result<(u64, Cursor), Refused>
    ensures { result ≡ call_check s.now c }
{
    let (_, c1) = c.within(s, 0, LARGEST).map_err(torn)?;
    let (count, c2) = limited(s, c1, MOST_ARGUMENTS)?;
    let c3 = zeros_check(s, 6, c2)?;
    Ok((count, c3))
}

// This is the number of an instruction's operands, and the cursor of the first, which of a call is behind its own cells.
#[inline(always)]
fn operands_of(s: &[u8], kind: u64, c: Cursor) -> Result<(u64, Cursor), Refused>
    ensures { result ≡ cond (eqb kind 5) (call_check s.now c) (Ok (sides_of kind, c)) }
{
    if kind == 5 {
        return call_check(s, c);
    }
    Ok((sides_of(kind), c))
}

// Left, right and a call's arguments are read as one list, by one call of `operands_check`.
#[inline(always)]
#[tactic(auto, using(crate::proofs::Sides::one_list))]
fn body_check(e: Edition, s: &[u8], kind: u64, c: Cursor) -> Result<Cursor, Refused>
    ensures { result ≡ body_in e s.now kind c }
{
    let (count, c1) = operands_of(s, kind, c)?;
    let c2 = operands_check(e, s, count, c1)?;
    zeros_check(s, unused_of(kind), c2)
}

// It is inlined, and so are most of its parts, since an answer is three words, which a call would hand back in memory.
#[inline(always)]
#[tactic(auto, unfolding(crate::specs::Layout::instr_in))]
pub fn instr_check(e: Edition, s: &[u8], c: Cursor) -> Result<Cursor, Refused>
    ensures { result ≡ instr_in e s.now c }
{
    let (kind, c1) = c.within(s, 0, 10).map_err(torn)?;
    let (operation, c2) = c1.within(s, 0, operation_most(kind)).map_err(torn)?;
    let c3 = dest_check(e, s, has_dest(kind, operation), c2)?;
    body_check(e, s, kind, c3)
}

pub fn instrs_check(e: Edition, s: &[u8], n: u64, c: Cursor) -> Result<Cursor, Refused>
    ensures { result ≡ instrs_in e s.now n c }
{
    each(n, c, |here| instr_check(e, s, here))
}
