// The parts of a sheet are written in the other edition, each into the bytes that it fills.
ghost use Rattle.std.specs.Prelude.{◌≡◌, [], ◌∷◌, ◌+◌, ◌*◌, ◌≤◌, ◌<◌, length};
ghost use Rattle.cells.specs.Cells.{cells, cell_at, cells_from, cell_bytes};
ghost use Rattle.ir.specs.Function.{arguments_at, behind};
ghost use Rattle.layout.specs.Layout.{param_width, LaidIn};
ghost use Rattle.edition.specs.Editions.{id_if, operand_id, side_id, operand_ids, instr_ids, instrs_ids, param_ids, ids, own_cells, var_cells, param_cells, operand_cells, dest_cells, side_cells, operands_cells, instr_cells, instrs_cells, params_cells, sheet_cells};
ghost use Rattle.edition.specs.Walked.{Entered, Present};

use crate::entries::{arguments, holds_var, param_width};
use cells::cell_at;
use ir::read::{Sheet, behind};
use layout::Edition;
use layout::instrs::{has_dest, has_left};

// It writes one cell.
#[tactic(auto, unfolding(cells::specs::Cells::cell_bytes, cells::specs::Cells::bytes_of))]
fn put_cell(v: u64, out: &mut [u8])
    requires { length out.old ≡ 8 }
    ensures { out.new ≡ cell_bytes (v ∷ []) }
{
    out.copy_from_slice(&v.to_le_bytes());
}

// It copies the first `n` cells, one by one: for a copy whose length only the sheet has, an archive asks C's memmove.
fn copy_head(s: &[u8], n: usize, out: &mut [u8])
    requires there { n ≤ cells s.now }
    requires room { length out.old ≡ 8 * n }
    ensures { out.new ≡ cell_bytes (cells_from s.now 0 n) }
{
    for i in 0..n {
        put_cell(cell_at(s, i), &mut out[8 * i..8 * (i + 1)]);
    }
}

// It copies the `n` cells from cell k on, a number that is known where it is called.
fn copy_cells(s: &[u8], k: usize, n: usize, out: &mut [u8])
    requires there { k + n ≤ cells s.now }
    requires room { length out.old ≡ 8 * n }
    ensures { out.new ≡ cell_bytes (cells_from s.now k n) }
{
    out.copy_from_slice(&s[8 * k..8 * (k + n)]);
}

// It writes the own type of an id that has an entry: the entry in edition 1, zeros in edition 2.
#[tactic(auto, unfolding(cells::specs::Cells::cells_from, cells::specs::Cells::cell_bytes, cells::specs::Cells::bytes_of))]
fn put_own(f: Edition, sheet: &Sheet, id: u64, out: &mut [u8])
    requires entered { id < cell_at sheet.now.bytes.now 0 }
    requires room { length out.old ≡ 16 }
    ensures { out.new ≡ cell_bytes (own_cells f sheet.now.bytes.now id) }
{
    match f {
        Edition::First => copy_cells(sheet.bytes, 6 + 2 * id as usize, 2, out),
        Edition::Second => out.copy_from_slice(&[0; 16]),
    }
}

// It writes the variable whose id is in cell k.
#[tactic(auto, using(crate::proofs::Written::behind_cell), unfolding(crate::specs::Editions::var_cells))]
fn put_var(f: Edition, sheet: &Sheet, k: usize, out: &mut [u8])
    requires there { k < cells sheet.now.bytes.now }
    requires entered { cell_at sheet.now.bytes.now k < cell_at sheet.now.bytes.now 0 }
    requires room { length out.old ≡ 24 }
    ensures { out.new ≡ cell_bytes (var_cells f sheet.now.bytes.now k) }
{
    let id = cell_at(sheet.bytes, k);
    let (first, own) = out.split_at_mut(8);
    put_cell(id, first);
    put_own(f, sheet, id, own);
}

// A dest is a variable. Where an instruction has none, its three cells are copied.
// It, an operand and a side are inlined, so that the lengths of their slices are constants.
#[inline(always)]
fn put_dest(f: Edition, sheet: &Sheet, has: bool, k: usize, out: &mut [u8])
    requires there { k + 3 ≤ cells sheet.now.bytes.now }
    requires entered { Entered sheet.now.bytes.now (id_if has k) }
    requires room { length out.old ≡ 24 }
    ensures { out.new ≡ cell_bytes (dest_cells f sheet.now.bytes.now has k) }
{
    if has {
        put_var(f, sheet, k, out);
    } else {
        copy_cells(sheet.bytes, k, 3, out);
    }
}

// An operand is its kind and then, as in a dest's place, a variable or three cells that are copied.
#[inline(always)]
#[tactic(auto, using(crate::proofs::Written::behind_cell), unfolding(crate::specs::Editions::operand_cells))]
fn put_operand(f: Edition, sheet: &Sheet, k: usize, out: &mut [u8])
    requires there { k + 4 ≤ cells sheet.now.bytes.now }
    requires entered { Entered sheet.now.bytes.now (operand_id sheet.now.bytes.now k) }
    requires room { length out.old ≡ 32 }
    ensures { out.new ≡ cell_bytes (operand_cells f sheet.now.bytes.now k) }
{
    let kind = cell_at(sheet.bytes, k);
    let (first, fields) = out.split_at_mut(8);
    put_cell(kind, first);
    put_dest(f, sheet, holds_var(kind), k + 1, fields);
}

// Left or right is an operand. Where an instruction has none, its four cells are copied.
#[inline(always)]
fn put_side(f: Edition, sheet: &Sheet, has: bool, k: usize, out: &mut [u8])
    requires there { k + 4 ≤ cells sheet.now.bytes.now }
    requires entered { Entered sheet.now.bytes.now (side_id sheet.now.bytes.now has k) }
    requires room { length out.old ≡ 32 }
    ensures { out.new ≡ cell_bytes (side_cells f sheet.now.bytes.now has k) }
{
    if has {
        put_operand(f, sheet, k, out);
    } else {
        copy_cells(sheet.bytes, k, 4, out);
    }
}

#[tactic(auto, using(crate::proofs::Parts::operands_length))]
fn put_operands(f: Edition, sheet: &Sheet, n: usize, k: usize, out: &mut [u8])
    requires there { k + 4 * n ≤ cells sheet.now.bytes.now }
    requires entered { Entered sheet.now.bytes.now (operand_ids sheet.now.bytes.now n k) }
    requires room { length out.old ≡ 32 * n }
    ensures { out.new ≡ cell_bytes (operands_cells f sheet.now.bytes.now n k) }
{
    for i in 0..n {
        put_operand(f, sheet, k + 4 * i, &mut out[32 * i..32 * (i + 1)]);
    }
}

// An instruction is its kind and operation, dest, left, right and a call's arguments.
#[tactic(auto, using(crate::proofs::Written::instr_written), unfolding(ir::specs::Function::behind, crate::specs::Editions::instr_ids, crate::specs::Editions::instr_cells))]
fn put_instr(f: Edition, sheet: &Sheet, k: usize, out: &mut [u8])
    requires there { behind sheet.now.bytes.now k ≤ cells sheet.now.bytes.now }
    requires entered { Entered sheet.now.bytes.now (instr_ids sheet.now.bytes.now k) }
    requires room { length out.old ≡ 8 * (13 + 4 * arguments_at sheet.now.bytes.now k) }
    ensures { out.new ≡ cell_bytes (instr_cells f sheet.now.bytes.now k) }
{
    let s = sheet.bytes;
    let kind = cell_at(s, k);
    let (kinds, rest) = out.split_at_mut(16);
    let (dest, rest) = rest.split_at_mut(24);
    let (left, rest) = rest.split_at_mut(32);
    let (right, rest) = rest.split_at_mut(32);
    copy_cells(s, k, 2, kinds);
    put_dest(f, sheet, has_dest(kind, cell_at(s, k + 1)), k + 2, dest);
    put_side(f, sheet, has_left(kind), k + 5, left);
    put_side(f, sheet, kind == 2, k + 9, right);
    put_operands(f, sheet, arguments(s, k), k + 13, rest);
}

// Instructions have as many cells in both editions.
#[tactic(auto, using(crate::proofs::Written::instrs_there))]
fn put_instrs(f: Edition, sheet: &Sheet, n: usize, k: usize, out: &mut [u8])
    requires present { Present sheet.now.bytes.now n k }
    requires entered { Entered sheet.now.bytes.now (instrs_ids sheet.now.bytes.now n k) }
    requires room { length out.old ≡ 8 * length (instrs_cells f sheet.now.bytes.now n k) }
    ensures { out.new ≡ cell_bytes (instrs_cells f sheet.now.bytes.now n k) }
{
    let mut at = k;
    for _ in 0..n {
        let next = behind(sheet.bytes, at);
        put_instr(f, sheet, at, &mut out[8 * (at - k)..8 * (next - k)]);
        at = next;
    }
}

// A parameter is a variable. In edition 2 it is its id alone.
#[tactic(auto, unfolding(crate::specs::Editions::param_cells))]
fn put_param(f: Edition, sheet: &Sheet, k: usize, out: &mut [u8])
    requires there { k < cells sheet.now.bytes.now }
    requires entered { cell_at sheet.now.bytes.now k < cell_at sheet.now.bytes.now 0 }
    requires room { length out.old ≡ 8 * param_width f }
    ensures { out.new ≡ cell_bytes (param_cells f sheet.now.bytes.now k) }
{
    match f {
        Edition::First => put_var(f, sheet, k, out),
        Edition::Second => put_cell(cell_at(sheet.bytes, k), out),
    }
}

// These are `n` parameters of edition e.
#[tactic(auto, using(crate::proofs::Parts::params_length))]
fn put_params(e: Edition, f: Edition, sheet: &Sheet, n: usize, k: usize, out: &mut [u8])
    requires there { k + param_width e * n ≤ cells sheet.now.bytes.now }
    requires entered { Entered sheet.now.bytes.now (param_ids e sheet.now.bytes.now n k) }
    requires room { length out.old ≡ 8 * (param_width f * n) }
    ensures { out.new ≡ cell_bytes (params_cells e f sheet.now.bytes.now n k) }
{
    let size = 8 * param_width(f);
    for i in 0..n {
        put_param(
            f,
            sheet,
            k + param_width(e) * i,
            &mut out[size * i..size * (i + 1)],
        );
    }
}

// The header and the variable types are copied; the parameters and the instructions follow in edition f.
#[tactic(auto, using(crate::proofs::Sheets::sheet_writing))]
pub(crate) fn put_sheet(e: Edition, f: Edition, sheet: &Sheet, out: &mut [u8])
    requires laid { LaidIn e sheet.now.bytes.now }
    requires entered { Entered sheet.now.bytes.now (ids e sheet.now.bytes.now) }
    requires room { length out.old ≡ 8 * length (sheet_cells e f sheet.now.bytes.now) }
    ensures { out.new ≡ cell_bytes (sheet_cells e f sheet.now.bytes.now) }
{
    let s = sheet.bytes;
    let params = cell_at(s, 1) as usize;
    let from = 6 + 2 * cell_at(s, 0) as usize;
    let (head, rest) = out.split_at_mut(8 * from);
    let (listed, body) = rest.split_at_mut(8 * (param_width(f) * params));
    copy_head(s, from, head);
    put_params(e, f, sheet, params, from, listed);
    put_instrs(
        f,
        sheet,
        cell_at(s, 5) as usize,
        from + param_width(e) * params,
        body,
    );
}
