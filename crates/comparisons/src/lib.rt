// These are the comparisons of Krc's codegen/arithmetic.rs: the records of a comparison of integers or of floats are counted or written.
#![tactic(auto)]

ghost use Rattle.std.specs.Prelude.{◌≡◌, [], ◌∷◌, ◌++◌, ◌+◌, ◌*◌, ◌≤◌, length};
ghost use Rattle.cells.specs.Cells.{write};
ghost use Rattle.ir.specs.Answers.{says};
ghost use Rattle.ir.specs.Lines.{dest_of, left_of, right_of};
ghost use Rattle.x86.specs.Registers.{RAX};
ghost use Rattle.x86.specs.Records.{list_bytes};
ghost use Rattle.codegen.specs.Instructions.{move};
ghost use Rattle.codegen.specs.Arithmetic.{unsigned_code, is_swapped, float_code, comparison};
ghost use Rattle.utils.specs.Answers.{held};
ghost use Rattle.utils.specs.Makes.{Makes, Ready};
ghost use Rattle.comparisons.specs.Looks.{parity_of, parity_for, float_choice, chosen, look_compared, compared_of};

use cells::refusals::Refusal;
use ir::Operand as IrOp;
use ir::lines::Line;
use records::put_instruction;
use utils::context::Context;
use utils::kinds::{Kind, operand_kind};
use utils::slots::{Sides, Slot, look_slot};
use utils::{mov, put_load, size_from, source};
use x86::enums::{BinOp, ConditionCode, Instruction, Operand, Size};
use x86::register::Register;

// The parity flag is asked by a second code. An operation joins that to the first.
#[derive(Clone, Copy)]
pub struct Parity {
    pub second: ConditionCode,
    pub join: BinOp,
}

// Two operands go into two registers. These are compared by an operation, and a code reads the flags, with the parity flag or without it.
#[derive(Clone, Copy)]
pub struct Choice {
    pub left: IrOp,
    pub left_register: Register,
    pub right: IrOp,
    pub right_register: Register,
    pub op: BinOp,
    pub cc: ConditionCode,
    pub parity: Option<Parity>,
}

// The look-ups find the choice, the size by which both sides are loaded and compared, their sources, and dest.
#[derive(Clone, Copy)]
pub struct Compared {
    pub choice: Choice,
    pub size: Size,
    pub sides: Sides,
}

// For an unsigned left that is no float G, GE, L, LE turn to A, AE, B, BE.
#[tactic(auto, unfolding(codegen::specs::Arithmetic::unsigned_code))]
fn unsigned_code(cc: ConditionCode) -> ConditionCode
    ensures { result ≡ unsigned_code cc }
{
    match cc {
        ConditionCode::G => ConditionCode::A,
        ConditionCode::GE => ConditionCode::AE,
        ConditionCode::L => ConditionCode::B,
        ConditionCode::LE => ConditionCode::BE,
        other => other,
    }
}

fn is_swapped(cc: ConditionCode) -> bool
    ensures { result ≡ is_swapped cc }
{
    matches!(cc, ConditionCode::L | ConditionCode::LE)
}

// On floats L and LE become G and GE, with the sides swapped, and these A and AE.
#[tactic(auto, unfolding(codegen::specs::Arithmetic::float_code))]
fn float_code(cc: ConditionCode) -> ConditionCode
    ensures { result ≡ float_code cc }
{
    match cc {
        ConditionCode::L => unsigned_code(ConditionCode::G),
        ConditionCode::LE => unsigned_code(ConditionCode::GE),
        other => unsigned_code(other),
    }
}

// Equality of floats asks the parity flag too: `sete al ; setnp cl ; and al, cl`, or `setne al ; setp cl ; or al, cl`.
fn parity_for(cc: ConditionCode) -> Option<Parity>
    ensures { result ≡ parity_for cc }
{
    match cc {
        ConditionCode::E => Some(Parity {
            second: ConditionCode::NP,
            join: BinOp::And,
        }),
        ConditionCode::NE => Some(Parity {
            second: ConditionCode::P,
            join: BinOp::Or,
        }),
        _ => None,
    }
}

fn float_choice(left: IrOp, right: IrOp, cc: ConditionCode, parity: Option<Parity>) -> Choice
    ensures { result ≡ float_choice left right cc parity }
{
    Choice {
        left,
        left_register: Register::XMM0,
        right,
        right_register: Register::XMM1,
        op: BinOp::UcomiF,
        cc,
        parity,
    }
}

// The code is signed where left is. A float's L and LE have the sides swapped.
#[tactic(auto, unfolding(crate::specs::Looks::chosen))]
fn chosen(left: IrOp, right: IrOp, kind: Kind, cc: ConditionCode) -> Choice
    ensures { result ≡ chosen left right kind.float kind.unsigned cc }
{
    if kind.float {
        if is_swapped(cc) {
            return float_choice(right, left, float_code(cc), None);
        }
        return float_choice(left, right, float_code(cc), parity_for(cc));
    }
    Choice {
        left,
        left_register: Register::RAX,
        right,
        right_register: Register::RCX,
        op: BinOp::Cmp,
        cc: if kind.unsigned { unsigned_code(cc) } else { cc },
        parity: None,
    }
}

// Dest is looked up last.
fn look_compared(context: &Context, line: &Line, cc: ConditionCode) -> Result<Compared, Refusal>
    ensures { says result ≡ look_compared (held context.now) (dest_of line.now) (left_of line.now) (right_of line.now) cc }
{
    let kind = operand_kind(context, line.left())?;
    let size = size_from(kind.size)?;
    let choice = chosen(line.left(), line.right(), kind, cc);
    let left = source(context, choice.left)?;
    let right = source(context, choice.right)?;
    let dest = look_slot(context, line.dest())?;
    Ok(Compared {
        choice,
        size,
        sides: Sides { left, right, dest },
    })
}

// The parity flag, where it is asked, and the store to dest.
fn put_store(out: &mut [u8], at: usize, dest: Slot, parity: Option<Parity>)
    requires { at + 64 * (length (parity_of parity) + 1) ≤ length out.old }
    ensures { out.new ≡ write out.old at (list_bytes (parity_of parity ++ move dest.var (Operand.Reg RAX) dest.size ∷ [])) }
{
    let store = mov(dest.var, Operand::Reg(Register::RAX), dest.size);
    match parity {
        None => put_instruction(out, at, store),
        Some(Parity { second, join }) => {
            put_instruction(
                out,
                at,
                Instruction::SetCC {
                    op: second,
                    dst: Operand::Reg(Register::RCX),
                },
            );
            put_instruction(
                out,
                at + 64,
                Instruction::Binary {
                    op: join,
                    dst: Operand::Reg(Register::RAX),
                    src: Operand::Reg(Register::RCX),
                    size: Size::U8,
                },
            );
            put_instruction(out, at + 128, store);
        }
    }
}

// Both sides, the comparison, the flag, what the parity flag asks, and the store.
fn put_compared(out: &mut [u8], at: usize, found: Compared)
    requires { at + 64 * length (compared_of found) ≤ length out.old }
    ensures { out.new ≡ write out.old at (list_bytes (compared_of found)) }
{
    let choice = found.choice;
    put_load(out, at, choice.left_register, found.sides.left, found.size);
    put_load(
        out,
        at + 64,
        choice.right_register,
        found.sides.right,
        found.size,
    );
    put_instruction(
        out,
        at + 128,
        Instruction::Binary {
            op: choice.op,
            dst: Operand::Reg(choice.left_register),
            src: Operand::Reg(choice.right_register),
            size: found.size,
        },
    );
    put_instruction(
        out,
        at + 192,
        Instruction::SetCC {
            op: choice.cc,
            dst: Operand::Reg(Register::RAX),
        },
    );
    put_store(out, at + 256, found.sides.dest, choice.parity);
}

fn records(found: Compared) -> u64
    ensures { result ≡ length (compared_of found) }
{
    if found.choice.parity.is_some() { 7 } else { 5 }
}

pub fn comparison(
    context: &Context,
    line: &Line,
    cc: ConditionCode,
    out: &mut [u8],
    at: usize,
    write: bool,
) -> Result<u64, Refusal>
    requires { Ready write (comparison (held context.now) (dest_of line.now) (left_of line.now) (right_of line.now) cc) at (length out.old) }
    ensures { Makes write (comparison (held context.now) (dest_of line.now) (left_of line.now) (right_of line.now) cc) at out.old out.new result }
{
    let found = look_compared(context, line, cc)?;
    if write {
        put_compared(out, at, found);
    }
    Ok(records(found))
}
