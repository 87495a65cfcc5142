// The parts of a sheet are read at the number of their first cell. The sheet has the cells: whoever calls has checked its layout.
ghost use Rattle.std.specs.Prelude.{◌≡◌, ◌+◌, ◌≤◌, eqb};
ghost use Rattle.cells.specs.Cells.{cells, cell_at};
ghost use Rattle.ir.specs.Lines.{kind_of, operation_of, dest_of, left_of, right_of};
ghost use Rattle.ir.specs.Function.{type_at, var_at, operand_at, dest_at, instr_at, behind, body_from, entry_at, params_from};

use crate::lines::Line;
use crate::{BinaryOp, Instr, Operand, Type, UnaryOp, VarId};
use cells::cell_at;

pub fn type_at(s: &[u8], k: usize) -> Type
    requires { k + 2 ≤ cells s.now }
    ensures { result ≡ type_at s.now k }
{
    Type {
        code: cell_at(s, k),
        count: cell_at(s, k + 1),
    }
}

pub fn var_at(s: &[u8], k: usize) -> VarId
    requires { k + 3 ≤ cells s.now }
    ensures { result ≡ var_at s.now k }
{
    let ty = type_at(s, k + 1);
    VarId {
        id: cell_at(s, k),
        ty,
    }
}

// Here, in `dest_at` and in `instr_at` the numbers of the format become the enums.
#[tactic(auto, unfolding(crate::specs::Function::operand_at))]
pub fn operand_at(s: &[u8], k: usize) -> Operand
    requires { k + 4 ≤ cells s.now }
    ensures { result ≡ operand_at s.now k }
{
    let kind = cell_at(s, k);
    match kind {
        0 => Operand::Var(var_at(s, k + 1)),
        1 => Operand::Int(
            cell_at(s, k + 1),
            cell_at(s, k + 2) == 1,
            cell_at(s, k + 3) == 1,
        ),
        2 => Operand::Float(cell_at(s, k + 1)),
        3 => Operand::Bool(cell_at(s, k + 1) == 1),
        4 => Operand::Address(var_at(s, k + 1)),
        5 => Operand::DataAddress(cell_at(s, k + 1)),
        _ => Operand::Null,
    }
}

pub fn dest_at(s: &[u8], k: usize) -> Option<VarId>
    requires { k + 5 ≤ cells s.now }
    ensures { result ≡ dest_at s.now k }
{
    if cell_at(s, k + 1) == 1 {
        Some(var_at(s, k + 2))
    } else {
        None
    }
}

// An instruction is 13 cells: its kind, the operation, dest, left and right.
#[tactic(auto, unfolding(crate::specs::Function::instr_at))]
pub fn instr_at(s: &[u8], k: usize) -> Instr
    requires { k + 13 ≤ cells s.now }
    ensures { result ≡ instr_at s.now k }
{
    let kind = cell_at(s, k);
    match kind {
        0 => Instr::Copy {
            dest: var_at(s, k + 2),
            src: operand_at(s, k + 5),
        },
        1 => Instr::Unary {
            dest: var_at(s, k + 2),
            op: UnaryOp::from(cell_at(s, k + 1)),
            src: operand_at(s, k + 5),
        },
        2 => Instr::Binary {
            dest: var_at(s, k + 2),
            op: BinaryOp::from(cell_at(s, k + 1)),
            left: operand_at(s, k + 5),
            right: operand_at(s, k + 9),
        },
        3 => Instr::Cast {
            dest: var_at(s, k + 2),
            src: operand_at(s, k + 5),
        },
        4 => Instr::Zero(var_at(s, k + 2)),
        5 => Instr::Call {
            dest: dest_at(s, k),
            symbol: cell_at(s, k + 5),
            count: cell_at(s, k + 6),
        },
        6 => Instr::Label(cell_at(s, k + 1)),
        7 => Instr::Jump(cell_at(s, k + 1)),
        8 => Instr::JumpIfNot {
            cond: operand_at(s, k + 5),
            target: cell_at(s, k + 1),
        },
        9 => Instr::Return(operand_at(s, k + 5)),
        _ => Instr::Comment,
    }
}

// It gives the cell behind an instruction and its arguments.
pub fn behind(s: &[u8], k: usize) -> usize
    requires { behind s.now k ≤ cells s.now }
    ensures { result ≡ behind s.now k }
{
    if cell_at(s, k) == 5 {
        k + 13 + 4 * cell_at(s, k + 6) as usize
    } else {
        k + 13
    }
}

// It gives the cell of the first instruction.
pub fn body_from(s: &[u8]) -> usize
    requires { body_from s.now ≤ cells s.now }
    ensures { result ≡ body_from s.now }
{
    6 + 2 * cell_at(s, 0) as usize + 3 * cell_at(s, 1) as usize
}

// A sheet has the cells of all its variable types.
#[derive(Clone, Copy)]
pub struct Sheet<'a> {
    pub bytes: &'a [u8],
    ghost typed: { params_from bytes.now ≤ cells bytes.now },
}

impl<'a> Sheet<'a> {
    // It gives the type of a variable that has an entry among them.
    pub fn entry(&self, id: u64) -> Option<Type>
        ensures { result ≡ entry_at self.now.bytes.now id }
    {
        if id < cell_at(self.bytes, 0) {
            Some(type_at(self.bytes, 6 + 2 * id as usize))
        } else {
            None
        }
    }
}

impl<'a> Line<'a> {
    pub fn kind(&self) -> u64
        ensures { result ≡ kind_of self.now }
    {
        cell_at(self.sheet, self.at)
    }

    pub fn operation(&self) -> u64
        ensures { result ≡ operation_of self.now }
    {
        cell_at(self.sheet, self.at + 1)
    }

    pub fn dest(&self) -> VarId
        ensures { result ≡ dest_of self.now }
    {
        var_at(self.sheet, self.at + 2)
    }

    pub fn left(&self) -> Operand
        ensures { result ≡ left_of self.now }
    {
        operand_at(self.sheet, self.at + 5)
    }

    pub fn right(&self) -> Operand
        ensures { result ≡ right_of self.now }
    {
        operand_at(self.sheet, self.at + 9)
    }
}
