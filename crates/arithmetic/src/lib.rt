// This is Krc's codegen/arithmetic.rs: `generate_binary`, which chooses among the eighteen binary operations, and `generate_unary`.
#![tactic(auto)]

ghost use Rattle.std.specs.Prelude.{◌≡◌, cond, ◌+◌, ◌≤◌, length};
ghost use Rattle.cells.specs.Cells.{write};
ghost use Rattle.ir.specs.Answers.{says};
ghost use Rattle.ir.specs.Lines.{dest_of, left_of, right_of};
ghost use Rattle.ir.specs.Types.{is_unsigned};
ghost use Rattle.x86.specs.Records.{record_of, record_bytes, list_bytes};
ghost use Rattle.codegen.specs.Arithmetic.{float_binary, integer_binary, generate_binary, sign_bit, generate_unary};
ghost use Rattle.utils.specs.Answers.{held};
ghost use Rattle.utils.specs.Makes.{Makes, Ready};
ghost use Rattle.arithmetic.specs.Codes.{comparison_code};
ghost use Rattle.arithmetic.specs.Unary.{look_unary, changed_of, sign_of, unary_record, flips_sign};

use cells::refusals::Refusal;
use comparisons::comparison;
use ir::lines::Line;
use ir::{BinaryOp, Type, UnaryOp as IrUnary};
use operations::{division, float_operation, multiplication, shift, simple_operation};
use records::put_instruction;
use utils::context::Context;
use utils::slots::Slot;
use utils::{convert_var, mov, put_load, source, var_size};
use x86::enums::{BinOp, ConditionCode, Instruction, Operand, ShiftOp, Size, UnaryOp};
use x86::register::Register;

// Only + - * / are done on a float.
fn float_binary(
    context: &Context,
    line: &Line,
    op: BinaryOp,
    out: &mut [u8],
    at: usize,
    write: bool,
) -> Result<u64, Refusal>
    requires { Ready write (float_binary (held context.now) (dest_of line.now) op (left_of line.now) (right_of line.now)) at (length out.old) }
    ensures { Makes write (float_binary (held context.now) (dest_of line.now) op (left_of line.now) (right_of line.now)) at out.old out.new result }
{
    match op {
        BinaryOp::Add => float_operation(context, line, BinOp::AddF, out, at, write),
        BinaryOp::Sub => float_operation(context, line, BinOp::SubF, out, at, write),
        BinaryOp::Mul => float_operation(context, line, BinOp::MulF, out, at, write),
        BinaryOp::Div => float_operation(context, line, BinOp::DivF, out, at, write),
        BinaryOp::Or
        | BinaryOp::And
        | BinaryOp::BitOr
        | BinaryOp::BitXor
        | BinaryOp::BitAnd
        | BinaryOp::Eq
        | BinaryOp::NotEq
        | BinaryOp::Lt
        | BinaryOp::Le
        | BinaryOp::Gt
        | BinaryOp::Ge
        | BinaryOp::Shl
        | BinaryOp::Shr
        | BinaryOp::Rem => Err(Refusal::NoLowering),
    }
}

// A signed dest's right shift copies the sign.
fn right_shift(ty: Type) -> ShiftOp
    ensures { result ≡ cond (is_unsigned ty) ShiftOp.Shr ShiftOp.Sar }
{
    if ty.is_unsigned() {
        ShiftOp::Shr
    } else {
        ShiftOp::Sar
    }
}

// A comparison has this code, and no other operation is asked for.
fn comparison_code(op: BinaryOp) -> ConditionCode
    ensures { result ≡ comparison_code op }
{
    match op {
        BinaryOp::Eq => ConditionCode::E,
        BinaryOp::NotEq => ConditionCode::NE,
        BinaryOp::Lt => ConditionCode::L,
        BinaryOp::Le => ConditionCode::LE,
        BinaryOp::Gt => ConditionCode::G,
        _ => ConditionCode::GE,
    }
}

// The logical pair never reaches the lowering. All comparisons are one call of their maker, which is inlined there.
fn integer_binary(
    context: &Context,
    line: &Line,
    op: BinaryOp,
    out: &mut [u8],
    at: usize,
    write: bool,
) -> Result<u64, Refusal>
    requires { Ready write (integer_binary (held context.now) (dest_of line.now) op (left_of line.now) (right_of line.now)) at (length out.old) }
    ensures { Makes write (integer_binary (held context.now) (dest_of line.now) op (left_of line.now) (right_of line.now)) at out.old out.new result }
{
    match op {
        BinaryOp::Or | BinaryOp::And => Err(Refusal::NoLowering),
        BinaryOp::BitOr => simple_operation(context, line, BinOp::Or, out, at, write),
        BinaryOp::BitXor => simple_operation(context, line, BinOp::Xor, out, at, write),
        BinaryOp::BitAnd => simple_operation(context, line, BinOp::And, out, at, write),
        BinaryOp::Eq
        | BinaryOp::NotEq
        | BinaryOp::Lt
        | BinaryOp::Le
        | BinaryOp::Gt
        | BinaryOp::Ge => comparison(context, line, comparison_code(op), out, at, write),
        BinaryOp::Shl => shift(context, line, ShiftOp::Shl, out, at, write),
        BinaryOp::Shr => {
            let shift_op = right_shift(line.dest().ty);
            shift(context, line, shift_op, out, at, write)
        }
        BinaryOp::Add => simple_operation(context, line, BinOp::Add, out, at, write),
        BinaryOp::Sub => simple_operation(context, line, BinOp::Sub, out, at, write),
        BinaryOp::Mul => multiplication(context, line, out, at, write),
        BinaryOp::Div => division(context, line, Register::RAX, out, at, write),
        BinaryOp::Rem => division(context, line, Register::RDX, out, at, write),
    }
}

// It makes `dest = left op right`, sized by dest.
#[tactic(auto, unfolding(codegen::specs::Arithmetic::generate_binary))]
pub fn generate_binary(
    context: &Context,
    line: &Line,
    op: BinaryOp,
    out: &mut [u8],
    at: usize,
    write: bool,
) -> Result<u64, Refusal>
    requires { Ready write (generate_binary (held context.now) (dest_of line.now) op (left_of line.now) (right_of line.now)) at (length out.old) }
    ensures { Makes write (generate_binary (held context.now) (dest_of line.now) op (left_of line.now) (right_of line.now)) at out.old out.new result }
{
    if line.dest().ty.is_float() {
        float_binary(context, line, op, out, at, write)
    } else {
        integer_binary(context, line, op, out, at, write)
    }
}

// The look-ups find a source and dest.
#[derive(Clone, Copy)]
pub struct Changed {
    pub src: Operand,
    pub dest: Slot,
}

fn look_unary(context: &Context, line: &Line) -> Result<Changed, Refusal>
    ensures { says result ≡ look_unary (held context.now) (dest_of line.now) (left_of line.now) }
{
    let size = var_size(line.dest())?;
    let src = source(context, line.left())?;
    let var = convert_var(context, line.dest())?;
    Ok(Changed {
        src,
        dest: Slot { var, size },
    })
}

// A float's sign bit is `i32::MIN` for four bytes, else `i64::MIN`.
fn sign_bit(size: Size) -> u64
    ensures { result ≡ sign_bit size }
{
    match size {
        Size::U32 => 0xffff_ffff_8000_0000,
        Size::NoSize | Size::U8 | Size::U16 | Size::U64 => 0x8000_0000_0000_0000,
    }
}

// It writes the record of an operation on RAX. The logical not of a Bool flips its lowest bit.
fn put_operation(out: &mut [u8], at: usize, op: IrUnary, size: Size)
    requires { at + 64 ≤ length out.old }
    ensures { out.new ≡ write out.old at (record_bytes (record_of (unary_record op size))) }
{
    let rax = Operand::Reg(Register::RAX);
    match op {
        IrUnary::Neg => put_instruction(
            out,
            at,
            Instruction::Unary {
                op: UnaryOp::Neg,
                dst: rax,
                size,
            },
        ),
        IrUnary::BitNot => put_instruction(
            out,
            at,
            Instruction::Unary {
                op: UnaryOp::Not,
                dst: rax,
                size,
            },
        ),
        IrUnary::Not => put_instruction(
            out,
            at,
            Instruction::Binary {
                op: BinOp::Xor,
                dst: rax,
                src: Operand::Imm(1),
                size,
            },
        ),
    }
}

// It writes a load, a record on RAX, and the store to dest.
fn put_changed(out: &mut [u8], at: usize, changed: Changed, op: IrUnary)
    requires { at + 192 ≤ length out.old }
    ensures { out.new ≡ write out.old at (list_bytes (changed_of (unary_record op changed.dest.size) changed)) }
{
    let size = changed.dest.size;
    put_load(out, at, Register::RAX, changed.src, size);
    put_operation(out, at + 64, op, size);
    put_instruction(
        out,
        at + 128,
        mov(changed.dest.var, Operand::Reg(Register::RAX), size),
    );
}

// -x of a float flips its sign bit.
fn put_sign(out: &mut [u8], at: usize, changed: Changed)
    requires { at + 256 ≤ length out.old }
    ensures { out.new ≡ write out.old at (list_bytes (sign_of changed)) }
{
    let size = changed.dest.size;
    let rax = Operand::Reg(Register::RAX);
    let rcx = Operand::Reg(Register::RCX);
    put_load(out, at, Register::RAX, changed.src, size);
    put_instruction(out, at + 64, mov(rcx, Operand::Imm(sign_bit(size)), size));
    put_instruction(
        out,
        at + 128,
        Instruction::Binary {
            op: BinOp::Xor,
            dst: rax,
            src: rcx,
            size,
        },
    );
    put_instruction(out, at + 192, mov(changed.dest.var, rax, size));
}

fn flips_sign(op: IrUnary, ty: Type) -> bool
    ensures { result ≡ flips_sign op ty }
{
    op == IrUnary::Neg && ty.is_float()
}

// It makes `dest = op src`.
pub fn generate_unary(
    context: &Context,
    line: &Line,
    op: IrUnary,
    out: &mut [u8],
    at: usize,
    write: bool,
) -> Result<u64, Refusal>
    requires { Ready write (generate_unary (held context.now) (dest_of line.now) op (left_of line.now)) at (length out.old) }
    ensures { Makes write (generate_unary (held context.now) (dest_of line.now) op (left_of line.now)) at out.old out.new result }
{
    let changed = look_unary(context, line)?;
    if flips_sign(op, line.dest().ty) {
        if write {
            put_sign(out, at, changed);
        }
        return Ok(4);
    }
    if write {
        put_changed(out, at, changed, op);
    }
    Ok(3)
}
