// Instructions are tested here.
ghost use Rattle.std.specs.Prelude.{◌≡◌, ◌<◌, ◌==◌, List, nat_le, slice_index};
ghost use Rattle.ir.specs.Function.{Line, function_of};
ghost use Rattle.layout.specs.Limits.{most_labels};
ghost use Rattle.machine.specs.Plain.{is_plain_binary, is_plain_cast, is_plain_instr};
ghost use Rattle.plain.specs.Parts.{is_plain_pair, is_wide, label_of, Counts};

use crate::operands::{
    SHORT_END, SMALL_END, is_bool, is_plain_operand, is_same, long_lies_below, width,
};
use crate::vars::{is_bool_type, is_entry, is_one_byte, is_scalar_var};
use ir::read::Sheet;
use ir::{BinaryOp, Instr, Operand, VarId};

// An operation asks this of dest, left and right.
#[tactic(auto, unfolding(machine::specs::Plain::is_plain_binary))]
fn is_plain_binary(op: BinaryOp, dest: VarId, left: Operand, right: Operand) -> bool
    ensures { result ≡ is_plain_binary op dest left right }
{
    match op {
        BinaryOp::Or | BinaryOp::And => false,
        BinaryOp::Eq
        | BinaryOp::NotEq
        | BinaryOp::Lt
        | BinaryOp::Le
        | BinaryOp::Gt
        | BinaryOp::Ge => is_bool_type(dest.ty),
        BinaryOp::BitOr | BinaryOp::BitXor | BinaryOp::BitAnd | BinaryOp::Add | BinaryOp::Sub =>
            is_same(dest, left) && long_lies_below(right, SMALL_END),
        BinaryOp::Shl | BinaryOp::Shr | BinaryOp::Div => is_same(dest, left),
        BinaryOp::Mul | BinaryOp::Rem => is_same(dest, left) && !is_one_byte(dest),
    }
}

// From four bytes to eight a cast is plain only for a dest of code 1 or 2.
fn is_wide(dest: VarId, src: Operand) -> bool
    ensures { result ≡ is_wide dest src }
{
    !(width(src) == 4 && dest.ty.bytes() == 8) || matches!(dest.ty.code, 1 | 2)
}

// A long constant to a narrower dest has four bytes.
fn is_plain_cast(dest: VarId, src: Operand) -> bool
    ensures { result ≡ is_plain_cast dest src }
{
    is_wide(dest, src) && (8 <= dest.ty.bytes() || long_lies_below(src, SHORT_END))
}

// Dest and operand are plain.
fn is_plain_pair(sheet: &Sheet, dest: VarId, operand: Operand) -> bool
    ensures { result ≡ is_plain_pair (function_of sheet.now.bytes.now) dest operand }
{
    is_scalar_var(sheet, dest) && is_plain_operand(sheet, operand)
}

// The label has not stood.
fn is_new(counts: &[u16; 256], label: u64) -> bool
    requires { label < most_labels }
    ensures { result ≡ (slice_index counts.now label == 0) }
{
    counts[label as usize] == 0
}

// The label stands.
fn stands(counts: &[u16; 256], label: u64) -> bool
    requires { label < most_labels }
    ensures { result ≡ nat_le 1 (slice_index counts.now label) }
{
    1 <= counts[label as usize]
}

// `counts` has how often each label stands in the body, `before` how often before this instruction.
#[tactic(auto, unfolding(machine::specs::Plain::is_plain_instr))]
pub fn is_plain_instr(sheet: &Sheet, counts: &[u16; 256], before: &[u16; 256], instr: Instr) -> bool
    requires counts { Counts (function_of sheet.now.bytes.now).body counts.now }
    requires instr_bound { label_of instr < most_labels }
    ensures { (lines : List Line) → Counts lines before.now → result ≡ is_plain_instr (function_of sheet.now.bytes.now) lines instr }
{
    match instr {
        Instr::Copy { dest, src } | Instr::Unary { dest, op: _, src } => {
            is_plain_pair(sheet, dest, src) && is_same(dest, src)
        }
        Instr::Binary {
            dest,
            op,
            left,
            right,
        } => {
            is_plain_pair(sheet, dest, left)
                && is_plain_operand(sheet, right)
                && width(left) == width(right)
                && is_plain_binary(op, dest, left, right)
        }
        Instr::Cast { dest, src } => is_plain_pair(sheet, dest, src) && is_plain_cast(dest, src),
        Instr::Zero(dest) => is_entry(sheet, dest),
        Instr::Call { .. } => false,
        Instr::Label(label) => is_new(before, label),
        Instr::Jump(label) => stands(counts, label),
        Instr::JumpIfNot { cond, target } => {
            is_plain_operand(sheet, cond) && is_bool(cond) && stands(counts, target)
        }
        Instr::Return(operand) => is_plain_operand(sheet, operand),
        Instr::Comment => true,
    }
}
