// The cells, types, variables and operands of a sheet are checked here.
ghost use Rattle.std.specs.Prelude.{◌≡◌, ℕ};
ghost use Rattle.cells.specs.declared.refusals.Refusal.{Refusal};
ghost use Rattle.layout.specs.Layout.{Checked, refused_at, end_check, limited, count_check, zeros_check, fields_check, type_check, return_check, own_in, var_in, param_in, first_field, operand_in, operands_in};
ghost use Rattle.layout.specs.Steps.{Repeats};

use crate::Edition;
use crate::limits::MOST_COUNT;
use cells::refusals::{Refusal, Refused};
use cells::{Cursor, WrongCell};
use ir::Type;

// This is the largest number that is not negative.
pub const LARGEST: u64 = 0x7fff_ffff_ffff_ffff;

pub(crate) fn torn(w: WrongCell) -> Refused
    ensures { result ≡ refused_at Refusal.TornSheet w.cell }
{
    Refused {
        refusal: Refusal::TornSheet,
        place: w.cell as u64,
    }
}

pub(crate) fn oversize(cell: usize) -> Refused
    ensures { result ≡ refused_at Refusal.Oversize cell }
{
    Refused {
        refusal: Refusal::Oversize,
        place: cell as u64,
    }
}

// Nothing is left behind the cursor, not even a torn cell.
#[tactic(auto, unfolding(crate::specs::Layout::end_check))]
pub fn end_check(refusal: Refusal, s: &[u8], c: Cursor) -> Result<Cursor, Refused>
    ensures { result ≡ end_check refusal s.now c }
{
    if c.at < s.len().div_ceil(8) {
        let place = c.at as u64;
        return Err(Refused { refusal, place });
    }
    Ok(c)
}

// The same step is taken `n` times, each from where the one before it ended. The first refusal ends it.
pub(crate) fn each<F: Fn(Cursor) -> Result<Cursor, Refused>>(
    n: u64,
    c: Cursor,
    step: F,
) -> Result<Cursor, Refused>
    requires { F.IsAlwaysCallable step }
    ensures { (rep : ℕ → Cursor → Checked) → Repeats (F.post step) rep → result ≡ rep n c }
{
    let mut here = c;
    for _ in 0..n {
        here = step(here)?;
    }
    Ok(here)
}

// A count that is negative is off the layout, and one above its limit is oversize.
#[tactic(auto, unfolding(crate::specs::Layout::limited))]
pub(crate) fn limited(s: &[u8], c: Cursor, most: u64) -> Result<(u64, Cursor), Refused>
    ensures { result ≡ limited s.now c most }
{
    let (v, next) = c.within(s, 0, LARGEST).map_err(torn)?;
    if v <= most {
        Ok((v, next))
    } else {
        Err(oversize(c.at))
    }
}

// The count of a type is -1 for no array, or from 0 to its limit.
#[tactic(auto, unfolding(crate::specs::Layout::count_check))]
fn count_check(s: &[u8], c: Cursor) -> Result<Cursor, Refused>
    ensures { result ≡ count_check s.now c }
{
    let (count, next) = c.cell(s).map_err(torn)?;
    if count == Type::NO_ARRAY {
        return Ok(next);
    }
    if LARGEST < count {
        return Err(torn(WrongCell { cell: c.at }));
    }
    if MOST_COUNT < count {
        return Err(oversize(c.at));
    }
    Ok(next)
}

// These are `n` unused cells.
pub(crate) fn zeros_check(s: &[u8], n: u64, c: Cursor) -> Result<Cursor, Refused>
    ensures { result ≡ zeros_check s.now n c }
{
    let mut here = c;
    for _ in 0..n {
        (_, here) = here.within(s, 0, 0).map_err(torn)?;
    }
    Ok(here)
}

// Each of three cells is from 0 to its own bound.
#[tactic(auto, unfolding(crate::specs::Layout::fields_check))]
fn fields_check(s: &[u8], c: Cursor, x: u64, y: u64, z: u64) -> Result<Cursor, Refused>
    ensures { result ≡ fields_check s.now c x y z }
{
    let (_, c1) = c.within(s, 0, x).map_err(torn)?;
    let (_, c2) = c1.within(s, 0, y).map_err(torn)?;
    let (_, c3) = c2.within(s, 0, z).map_err(torn)?;
    Ok(c3)
}

// A type is a code and a count.
#[tactic(auto, unfolding(crate::specs::Layout::type_check))]
pub(crate) fn type_check(s: &[u8], c: Cursor) -> Result<Cursor, Refused>
    ensures { result ≡ type_check s.now c }
{
    let (_, next) = c.within(s, 1, 12).map_err(torn)?;
    count_check(s, next)
}

// A return type may be 0, -1 for none.
#[tactic(auto, unfolding(crate::specs::Layout::return_check))]
pub(crate) fn return_check(s: &[u8], c: Cursor) -> Result<Cursor, Refused>
    ensures { result ≡ return_check s.now c }
{
    let (code, next) = c.within(s, 0, 12).map_err(torn)?;
    if code == 0 {
        let (_, end) = next
            .within(s, Type::NO_ARRAY, Type::NO_ARRAY)
            .map_err(torn)?;
        return Ok(end);
    }
    count_check(s, next)
}

// In edition 2 the two cells of a variable's own type are 0.
fn own_check(e: Edition, s: &[u8], c: Cursor) -> Result<Cursor, Refused>
    ensures { result ≡ own_in e s.now c }
{
    match e {
        Edition::First => type_check(s, c),
        Edition::Second => zeros_check(s, 2, c),
    }
}

// A variable is an id and its own type.
#[tactic(auto, unfolding(crate::specs::Layout::var_in))]
pub(crate) fn var_check(e: Edition, s: &[u8], c: Cursor) -> Result<Cursor, Refused>
    ensures { result ≡ var_in e s.now c }
{
    let (_, next) = c.within(s, 0, LARGEST).map_err(torn)?;
    own_check(e, s, next)
}

// A parameter is a variable. In edition 2 it is its id alone.
#[tactic(auto, unfolding(crate::specs::Layout::param_in))]
pub(crate) fn param_check(e: Edition, s: &[u8], c: Cursor) -> Result<Cursor, Refused>
    ensures { result ≡ param_in e s.now c }
{
    match e {
        Edition::First => var_check(e, s, c),
        Edition::Second => {
            let (_, next) = c.within(s, 0, LARGEST).map_err(torn)?;
            Ok(next)
        }
    }
}

// This is the bound of an operand's first field, by its position in Krc's `Operand`.
fn first_field(kind: u64) -> u64
    ensures { result ≡ first_field kind }
{
    match kind {
        1 => u64::MAX,
        3 => 1,
        6 => 0,
        _ => LARGEST,
    }
}

// An operand is four cells: 0 Var and 4 Address hold a variable, and 1 Int has flags.
#[tactic(auto, unfolding(crate::specs::Layout::operand_in))]
fn operand_check(e: Edition, s: &[u8], c: Cursor) -> Result<Cursor, Refused>
    ensures { result ≡ operand_in e s.now c }
{
    let (kind, next) = c.within(s, 0, 6).map_err(torn)?;
    match kind {
        0 | 4 => var_check(e, s, next),
        1 => fields_check(s, next, first_field(kind), 1, 1),
        _ => fields_check(s, next, first_field(kind), 0, 0),
    }
}

pub(crate) fn operands_check(e: Edition, s: &[u8], n: u64, c: Cursor) -> Result<Cursor, Refused>
    ensures { result ≡ operands_in e s.now n c }
{
    each(n, c, |here| operand_check(e, s, here))
}
