// These are the binary operations of Krc's codegen/arithmetic.rs that are no comparisons: their records are counted or written.
#![tactic(auto)]

ghost use Rattle.std.specs.Prelude.{◌≡◌, ◌+◌, ◌*◌, ◌≤◌, length};
ghost use Rattle.cells.specs.Cells.{write};
ghost use Rattle.ir.specs.Answers.{says};
ghost use Rattle.ir.specs.Lines.{dest_of, left_of, right_of};
ghost use Rattle.x86.specs.Registers.{RCX};
ghost use Rattle.x86.specs.Records.{list_bytes};
ghost use Rattle.codegen.specs.Arithmetic.{simple_operation, float_operation, two_loads, sign_into, dividing, division, multiplication, shift};
ghost use Rattle.utils.specs.Answers.{held};
ghost use Rattle.utils.specs.Makes.{Makes, Ready};
ghost use Rattle.operations.specs.Loads.{look_sides, one_load, one_load_of, middle_of, middle_count, two_loads_of};

use cells::refusals::Refusal;
use ir::lines::Line;
use records::put_instruction;
use utils::context::Context;
use utils::slots::{Sides, Slot};
use utils::{convert_operand, convert_var, mov, put_load, source, var_size};
use x86::enums::{BinOp, ComplexBinOp, Instruction, Operand, ShiftOp, Size, UnaryOp};
use x86::register::Register;

// What is made of RAX and RCX between two loads and the store; of a division it is said whether it is unsigned.
#[derive(Clone, Copy)]
pub enum Middle {
    Multiply,
    Shift(ShiftOp),
    Divide(bool),
}

// Right's look-up is the caller's, since right is loaded too, or is an operand of the operation itself. Its refusal counts behind left's.
// This function is inlined, since `right` and what it finds would go through memory.
#[inline(always)]
fn look_sides(
    context: &Context,
    line: &Line,
    right: Result<Operand, Refusal>,
) -> Result<Sides, Refusal>
    ensures { says result ≡ look_sides (held context.now) (dest_of line.now) (left_of line.now) (says right) }
{
    let size = var_size(line.dest())?;
    let left = source(context, line.left())?;
    let right = right?;
    let var = convert_var(context, line.dest())?;
    Ok(Sides {
        left,
        right,
        dest: Slot { var, size },
    })
}

fn put_one_load(
    out: &mut [u8],
    at: usize,
    sides: Sides,
    register: Register,
    op: BinOp,
    store: BinOp,
)
    requires { at + 192 ≤ length out.old }
    ensures { out.new ≡ write out.old at (list_bytes (one_load_of register op store sides)) }
{
    let size = sides.dest.size;
    put_load(out, at, register, sides.left, size);
    put_instruction(
        out,
        at + 64,
        Instruction::Binary {
            op,
            dst: Operand::Reg(register),
            src: sides.right,
            size,
        },
    );
    put_instruction(
        out,
        at + 128,
        Instruction::Binary {
            op: store,
            dst: sides.dest.var,
            src: Operand::Reg(register),
            size,
        },
    );
}

// Left is loaded into a register, the operation is done on that and right, and the register is stored to dest.
fn one_load(
    context: &Context,
    line: &Line,
    register: Register,
    op: BinOp,
    store: BinOp,
    out: &mut [u8],
    at: usize,
    write: bool,
) -> Result<u64, Refusal>
    requires { Ready write (one_load (held context.now) (dest_of line.now) (left_of line.now) (right_of line.now) register op store) at (length out.old) }
    ensures { Makes write (one_load (held context.now) (dest_of line.now) (left_of line.now) (right_of line.now) register op store) at out.old out.new result }
{
    let sides = look_sides(context, line, convert_operand(context, line.right()))?;
    if write {
        put_one_load(out, at, sides, register, op, store);
    }
    Ok(3)
}

// It makes `mov rax, left ; op rax, right ; mov [dest], rax`.
#[tactic(auto, unfolding(codegen::specs::Arithmetic::simple_operation))]
pub fn simple_operation(
    context: &Context,
    line: &Line,
    op: BinOp,
    out: &mut [u8],
    at: usize,
    write: bool,
) -> Result<u64, Refusal>
    requires { Ready write (simple_operation (held context.now) (dest_of line.now) (left_of line.now) (right_of line.now) op) at (length out.old) }
    ensures { Makes write (simple_operation (held context.now) (dest_of line.now) (left_of line.now) (right_of line.now) op) at out.old out.new result }
{
    one_load(context, line, Register::RAX, op, BinOp::Mov, out, at, write)
}

// It makes `movsd xmm0, left ; op xmm0, right ; movsd [dest], xmm0`.
#[tactic(auto, unfolding(codegen::specs::Arithmetic::float_operation))]
pub fn float_operation(
    context: &Context,
    line: &Line,
    op: BinOp,
    out: &mut [u8],
    at: usize,
    write: bool,
) -> Result<u64, Refusal>
    requires { Ready write (float_operation (held context.now) (dest_of line.now) (left_of line.now) (right_of line.now) op) at (length out.old) }
    ensures { Makes write (float_operation (held context.now) (dest_of line.now) (left_of line.now) (right_of line.now) op) at out.old out.new result }
{
    one_load(
        context,
        line,
        Register::XMM0,
        op,
        BinOp::StoreF,
        out,
        at,
        write,
    )
}

// RAX's sign goes into RDX by Cdq for four bytes, else by Cqo.
fn sign_into(size: Size) -> UnaryOp
    ensures { result ≡ sign_into size }
{
    match size {
        Size::U32 => UnaryOp::Cdq,
        Size::NoSize | Size::U8 | Size::U16 | Size::U64 => UnaryOp::Cqo,
    }
}

// RDX and RAX are divided by RCX.
fn divide(op: ComplexBinOp, size: Size) -> Instruction
    ensures { result ≡ Instruction.ComplexBinary op Operand.NoOperand (Operand.Reg RCX) size }
{
    Instruction::ComplexBinary {
        op,
        dst: Operand::NoOperand,
        src: Operand::Reg(Register::RCX),
        size,
    }
}

// `unsigned` is what `dividing` is given, and no switch between two ways of more than two records.
// RDX is cleared for an unsigned dest, else RAX's sign is extended into it.
fn put_dividing(out: &mut [u8], at: usize, unsigned: bool, size: Size)
    requires { at + 128 ≤ length out.old }
    ensures { out.new ≡ write out.old at (list_bytes (dividing unsigned size)) }
{
    let rdx = Operand::Reg(Register::RDX);
    if unsigned {
        put_instruction(
            out,
            at,
            Instruction::Binary {
                op: BinOp::Xor,
                dst: rdx,
                src: rdx,
                size,
            },
        );
        put_instruction(out, at + 64, divide(ComplexBinOp::Div, size));
    } else {
        put_instruction(
            out,
            at,
            Instruction::Unary {
                op: sign_into(size),
                dst: Operand::NoOperand,
                size,
            },
        );
        put_instruction(out, at + 64, divide(ComplexBinOp::Idiv, size));
    }
}

impl Middle {
    fn records(self) -> usize
        ensures { result ≡ middle_count self }
    {
        match self {
            Middle::Multiply | Middle::Shift(_) => 1,
            Middle::Divide(_) => 2,
        }
    }

    fn put(self, out: &mut [u8], at: usize, size: Size)
        requires { at + 64 * middle_count self ≤ length out.old }
        ensures { out.new ≡ write out.old at (list_bytes (middle_of self size)) }
    {
        let dst = Operand::Reg(Register::RAX);
        let src = Operand::Reg(Register::RCX);
        match self {
            Middle::Multiply => put_instruction(
                out,
                at,
                Instruction::ComplexBinary {
                    op: ComplexBinOp::Imul,
                    dst,
                    src,
                    size,
                },
            ),
            Middle::Shift(op) => put_instruction(
                out,
                at,
                Instruction::Shift { op, dst, src, size },
            ),
            Middle::Divide(unsigned) => put_dividing(out, at, unsigned, size),
        }
    }
}

// Left goes into RAX and right into RCX; behind the operation a register is stored to dest.
fn put_two_loads(out: &mut [u8], at: usize, sides: Sides, middle: Middle, outcome: Register)
    requires { at + 64 * (middle_count middle + 3) ≤ length out.old }
    ensures { out.new ≡ write out.old at (list_bytes (two_loads_of (middle_of middle) outcome sides)) }
{
    let size = sides.dest.size;
    let behind = 128 + 64 * middle.records();
    put_load(out, at, Register::RAX, sides.left, size);
    put_load(out, at + 64, Register::RCX, sides.right, size);
    middle.put(out, at + 128, size);
    put_instruction(
        out,
        at + behind,
        mov(sides.dest.var, Operand::Reg(outcome), size),
    );
}

fn two_loads(
    context: &Context,
    line: &Line,
    middle: Middle,
    outcome: Register,
    out: &mut [u8],
    at: usize,
    write: bool,
) -> Result<u64, Refusal>
    requires { Ready write (two_loads (held context.now) (dest_of line.now) (left_of line.now) (right_of line.now) (middle_of middle) outcome) at (length out.old) }
    ensures { Makes write (two_loads (held context.now) (dest_of line.now) (left_of line.now) (right_of line.now) (middle_of middle) outcome) at out.old out.new result }
{
    let sides = look_sides(context, line, source(context, line.right()))?;
    if write {
        put_two_loads(out, at, sides, middle, outcome);
    }
    Ok(middle.records() as u64 + 3)
}

// The quotient comes in RAX, the remainder in RDX.
#[tactic(auto, unfolding(codegen::specs::Arithmetic::division))]
pub fn division(
    context: &Context,
    line: &Line,
    outcome: Register,
    out: &mut [u8],
    at: usize,
    write: bool,
) -> Result<u64, Refusal>
    requires { Ready write (division (held context.now) (dest_of line.now) (left_of line.now) (right_of line.now) outcome) at (length out.old) }
    ensures { Makes write (division (held context.now) (dest_of line.now) (left_of line.now) (right_of line.now) outcome) at out.old out.new result }
{
    let middle = Middle::Divide(line.dest().ty.is_unsigned());
    two_loads(context, line, middle, outcome, out, at, write)
}

#[tactic(auto, unfolding(codegen::specs::Arithmetic::multiplication))]
pub fn multiplication(
    context: &Context,
    line: &Line,
    out: &mut [u8],
    at: usize,
    write: bool,
) -> Result<u64, Refusal>
    requires { Ready write (multiplication (held context.now) (dest_of line.now) (left_of line.now) (right_of line.now)) at (length out.old) }
    ensures { Makes write (multiplication (held context.now) (dest_of line.now) (left_of line.now) (right_of line.now)) at out.old out.new result }
{
    let middle = Middle::Multiply;
    two_loads(context, line, middle, Register::RAX, out, at, write)
}

// The count goes through RCX.
#[tactic(auto, unfolding(codegen::specs::Arithmetic::shift))]
pub fn shift(
    context: &Context,
    line: &Line,
    op: ShiftOp,
    out: &mut [u8],
    at: usize,
    write: bool,
) -> Result<u64, Refusal>
    requires { Ready write (shift (held context.now) (dest_of line.now) (left_of line.now) (right_of line.now) op) at (length out.old) }
    ensures { Makes write (shift (held context.now) (dest_of line.now) (left_of line.now) (right_of line.now) op) at out.old out.new result }
{
    let middle = Middle::Shift(op);
    two_loads(context, line, middle, Register::RAX, out, at, write)
}
