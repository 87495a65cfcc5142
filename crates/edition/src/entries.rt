// The ids of a sheet are looked up among its variable types. A stray one has no entry, or its own type is not its entry's.
ghost use Rattle.std.specs.Prelude.{◌≡◌, ◌+◌, ◌*◌, ◌≤◌};
ghost use Rattle.cells.specs.Cells.{cells, cell_at};
ghost use Rattle.ir.specs.Function.{arguments_at, behind};
ghost use Rattle.layout.specs.Layout.{param_width, holds_var, LaidIn};
ghost use Rattle.edition.specs.Editions.{id_if, operand_id, side_id, operand_ids, instr_ids, instrs_ids, param_ids, ids, agrees};
ghost use Rattle.edition.specs.Answers.{looked_up};
ghost use Rattle.edition.specs.Walked.{Present};

use cells::cell_at;
use cells::refusals::{Refusal, Refused};
use ir::read::{Sheet, behind, type_at};
use layout::Edition;
use layout::instrs::{has_dest, has_left};

// An operand of kind 0 is a Var, one of kind 4 an Address. They hold a variable.
pub(crate) fn holds_var(kind: u64) -> bool
    ensures { result ≡ holds_var kind }
{
    kind == 0 || kind == 4
}

// This is the number of a parameter's cells.
pub(crate) fn param_width(e: Edition) -> usize
    ensures { result ≡ param_width e }
{
    match e {
        Edition::First => 3,
        Edition::Second => 1,
    }
}

// A call has arguments, and no other instruction.
#[tactic(auto, unfolding(ir::specs::Function::arguments_at))]
pub(crate) fn arguments(s: &[u8], k: usize) -> usize
    requires { k + 13 ≤ cells s.now }
    ensures { result ≡ arguments_at s.now k }
{
    if cell_at(s, k) == 5 {
        cell_at(s, k + 6) as usize
    } else {
        0
    }
}

// The id in cell k has an entry, and in edition 1 its own type is the entry's.
#[tactic(auto, unfolding(crate::specs::Editions::agrees))]
fn agrees(e: Edition, sheet: &Sheet, k: usize) -> bool
    requires { k + param_width e ≤ cells sheet.now.bytes.now }
    ensures { result ≡ agrees e sheet.now.bytes.now k }
{
    let entry = sheet.entry(cell_at(sheet.bytes, k));
    match e {
        Edition::First => entry == Some(type_at(sheet.bytes, k + 1)),
        Edition::Second => entry.is_some(),
    }
}

#[tactic(auto, unfolding(crate::specs::Editions::stray_in))]
fn look_up_id(e: Edition, sheet: &Sheet, has: bool, k: usize) -> Result<(), Refused>
    requires { k + param_width e ≤ cells sheet.now.bytes.now }
    ensures { result ≡ looked_up e sheet.now.bytes.now (id_if has k) }
{
    if has && !agrees(e, sheet, k) {
        return Err(Refused {
            refusal: Refusal::TypeDiffers,
            place: k as u64,
        });
    }
    Ok(())
}

fn look_up_operand(e: Edition, sheet: &Sheet, k: usize) -> Result<(), Refused>
    requires { k + 4 ≤ cells sheet.now.bytes.now }
    ensures { result ≡ looked_up e sheet.now.bytes.now (operand_id sheet.now.bytes.now k) }
{
    look_up_id(e, sheet, holds_var(cell_at(sheet.bytes, k)), k + 1)
}

#[tactic(auto, unfolding(crate::specs::Editions::stray_in))]
fn look_up_side(e: Edition, sheet: &Sheet, has: bool, k: usize) -> Result<(), Refused>
    requires { k + 4 ≤ cells sheet.now.bytes.now }
    ensures { result ≡ looked_up e sheet.now.bytes.now (side_id sheet.now.bytes.now has k) }
{
    if has {
        look_up_operand(e, sheet, k)
    } else {
        Ok(())
    }
}

// The arguments of a call are `n` operands from cell k on.
#[tactic(auto, using(crate::proofs::Strays::looking), unfolding(crate::specs::Editions::stray_in))]
fn look_up_operands(e: Edition, sheet: &Sheet, n: usize, k: usize) -> Result<(), Refused>
    requires { k + 4 * n ≤ cells sheet.now.bytes.now }
    ensures { result ≡ looked_up e sheet.now.bytes.now (operand_ids sheet.now.bytes.now n k) }
{
    for i in 0..n {
        look_up_operand(e, sheet, k + 4 * i)?;
    }
    Ok(())
}

// An instruction's ids are those of dest, left, right and its arguments.
#[tactic(auto, using(crate::proofs::Strays::looking), unfolding(crate::specs::Editions::instr_ids, ir::specs::Function::behind))]
fn look_up_instr(e: Edition, sheet: &Sheet, k: usize) -> Result<(), Refused>
    requires { behind sheet.now.bytes.now k ≤ cells sheet.now.bytes.now }
    ensures { result ≡ looked_up e sheet.now.bytes.now (instr_ids sheet.now.bytes.now k) }
{
    let s = sheet.bytes;
    let kind = cell_at(s, k);
    look_up_id(e, sheet, has_dest(kind, cell_at(s, k + 1)), k + 2)?;
    look_up_side(e, sheet, has_left(kind), k + 5)?;
    look_up_side(e, sheet, kind == 2, k + 9)?;
    look_up_operands(e, sheet, arguments(s, k), k + 13)
}

#[tactic(auto, using(crate::proofs::Strays::looking), unfolding(crate::specs::Editions::stray_in))]
fn look_up_instrs(e: Edition, sheet: &Sheet, n: usize, k: usize) -> Result<(), Refused>
    requires { Present sheet.now.bytes.now n k }
    ensures { result ≡ looked_up e sheet.now.bytes.now (instrs_ids sheet.now.bytes.now n k) }
{
    let mut at = k;
    for _ in 0..n {
        look_up_instr(e, sheet, at)?;
        at = behind(sheet.bytes, at);
    }
    Ok(())
}

#[tactic(auto, using(crate::proofs::Strays::looking), unfolding(crate::specs::Editions::stray_in))]
fn look_up_params(e: Edition, sheet: &Sheet, n: usize, k: usize) -> Result<(), Refused>
    requires { k + param_width e * n ≤ cells sheet.now.bytes.now }
    ensures { result ≡ looked_up e sheet.now.bytes.now (param_ids e sheet.now.bytes.now n k) }
{
    for i in 0..n {
        look_up_id(e, sheet, true, k + param_width(e) * i)?;
    }
    Ok(())
}

// The ids of a sheet are those of its parameters, then those of its instructions.
#[tactic(auto, using(crate::proofs::Strays::sheet_looking), unfolding(crate::specs::Editions::ids))]
pub(crate) fn look_up_ids(e: Edition, sheet: &Sheet) -> Result<(), Refused>
    requires { LaidIn e sheet.now.bytes.now }
    ensures { result ≡ looked_up e sheet.now.bytes.now (ids e sheet.now.bytes.now) }
{
    let s = sheet.bytes;
    let params = cell_at(s, 1) as usize;
    let from = 6 + 2 * cell_at(s, 0) as usize;
    look_up_params(e, sheet, params, from)?;
    look_up_instrs(
        e,
        sheet,
        cell_at(s, 5) as usize,
        from + param_width(e) * params,
    )
}
