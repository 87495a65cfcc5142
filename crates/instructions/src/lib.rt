// This is Krc's codegen/instructions.rs, but for casts and calls: the records of one instruction are counted or written.
#![tactic(auto)]

ghost use Rattle.std.specs.Prelude.{◌≡◌, ◌+◌, ◌≤◌, length};
ghost use Rattle.cells.specs.Cells.{write};
ghost use Rattle.ir.specs.Answers.{says};
ghost use Rattle.ir.specs.Lines.{operation_of, dest_of, left_of};
ghost use Rattle.x86.specs.Records.{list_bytes};
ghost use Rattle.codegen.specs.Context.{label_at};
ghost use Rattle.codegen.specs.Instructions.{func_epilogue, generate_return, generate_copy, generate_zero, generate_label, generate_jump, generate_jmp_if_not};
ghost use Rattle.utils.specs.Answers.{held};
ghost use Rattle.utils.specs.Makes.{Makes, Ready};
ghost use Rattle.instructions.specs.Looks.{return_register, return_of, zero_of, labelled, branch_of};

use cells::refusals::Refusal;
use ir::Type;
use ir::lines::Line;
use records::put_instruction;
use utils::context::Context;
use utils::slots::{look_slot, put_moved};
use utils::{convert_var, mov, own_size, put_load, source};
use x86::enums::{
    BinOp, ConditionCode, CtrlOp, Instruction, Operand, Prefix, Size, StackOp, StringOp,
};
use x86::register::Register;

// It writes `mov rsp, rbp ; pop rbp ; ret`.
pub fn func_epilogue(out: &mut [u8], at: usize)
    requires { at + 192 ≤ length out.old }
    ensures { out.new ≡ write out.old at (list_bytes func_epilogue) }
{
    let rbp = Operand::Reg(Register::RBP);
    put_instruction(out, at, mov(Operand::Reg(Register::RSP), rbp, Size::NoSize));
    put_instruction(
        out,
        at + 64,
        Instruction::Stack {
            op: StackOp::Pop,
            value: rbp,
            size: Size::NoSize,
        },
    );
    put_instruction(
        out,
        at + 128,
        Instruction::Ctrl {
            op: CtrlOp::Ret,
            target: Operand::NoOperand,
        },
    );
}

// The value comes back in XMM0 for a float return type, else in RAX.
fn return_register(ret: Type) -> Register
    ensures { result ≡ return_register ret }
{
    if ret.is_float() {
        Register::XMM0
    } else {
        Register::RAX
    }
}

fn put_return(out: &mut [u8], at: usize, reg: Register, src: Operand, size: Size)
    requires { at + 256 ≤ length out.old }
    ensures { out.new ≡ write out.old at (list_bytes (return_of reg src size)) }
{
    put_load(out, at, reg, src, size);
    func_epilogue(out, at + 64);
}

// It makes a load, then the epilogue.
#[tactic(auto, using(crate::proofs::Looked::return_looked))]
pub fn generate_return(
    context: &Context,
    line: &Line,
    ret: Type,
    out: &mut [u8],
    at: usize,
    write: bool,
) -> Result<u64, Refusal>
    requires { Ready write (generate_return (held context.now) ret (left_of line.now)) at (length out.old) }
    ensures { Makes write (generate_return (held context.now) ret (left_of line.now)) at out.old out.new result }
{
    let value = line.left();
    let src = source(context, value)?;
    if write {
        let size = own_size(context, value);
        put_return(out, at, return_register(ret), src, size);
    }
    Ok(4)
}

// It makes `dest = src`, sized by dest.
#[tactic(auto, using(crate::proofs::Looked::copy_looked))]
pub fn generate_copy(
    context: &Context,
    line: &Line,
    out: &mut [u8],
    at: usize,
    write: bool,
) -> Result<u64, Refusal>
    requires { Ready write (generate_copy (held context.now) (dest_of line.now) (left_of line.now)) at (length out.old) }
    ensures { Makes write (generate_copy (held context.now) (dest_of line.now) (left_of line.now)) at out.old out.new result }
{
    let slot = look_slot(context, line.dest())?;
    let src = source(context, line.left())?;
    if write {
        put_moved(out, at, src, slot.size, slot);
    }
    Ok(2)
}

// ---- zero

fn put_zero(out: &mut [u8], at: usize, bytes: u64, var: Operand)
    requires { at + 256 ≤ length out.old }
    ensures { out.new ≡ write out.old at (list_bytes (zero_of bytes var)) }
{
    put_instruction(
        out,
        at,
        Instruction::Lea {
            src: var,
            dst: Register::RDI,
            size: Size::NoSize,
        },
    );
    put_instruction(
        out,
        at + 64,
        mov(Operand::Reg(Register::RCX), Operand::Imm(bytes), Size::U64),
    );
    put_instruction(
        out,
        at + 128,
        mov(Operand::Reg(Register::RAX), Operand::Imm(0), Size::U64),
    );
    put_instruction(
        out,
        at + 192,
        Instruction::Prefix {
            prefix: Prefix::Rep,
            op: StringOp::Stos,
            size: Size::U8,
        },
    );
}

// It makes `lea rdi, [dest] ; mov rcx, size ; mov rax, 0 ; rep stosb`.
#[tactic(auto, unfolding(codegen::specs::Instructions::generate_zero))]
pub fn generate_zero(
    context: &Context,
    line: &Line,
    out: &mut [u8],
    at: usize,
    write: bool,
) -> Result<u64, Refusal>
    requires { Ready write (generate_zero (held context.now) (dest_of line.now)) at (length out.old) }
    ensures { Makes write (generate_zero (held context.now) (dest_of line.now)) at out.old out.new result }
{
    let dest = line.dest();
    let bytes = dest.ty.size()?;
    let var = convert_var(context, dest)?;
    if write {
        put_zero(out, at, bytes, var);
    }
    Ok(4)
}

// ---- labels and jumps

// It is `ctx.labels[id]`, of so many labels.
#[tactic(auto, unfolding(codegen::specs::Context::label_at))]
fn label_at(labels: u64, id: u64) -> Result<u64, Refusal>
    ensures { says result ≡ label_at labels id }
{
    if id < labels {
        Ok(id)
    } else {
        Err(Refusal::NoEntry)
    }
}

// A label is looked up, and one record is made.
#[inline(always)]
#[tactic(auto, unfolding(x86::specs::Records::list_bytes))]
fn labelled(
    labels: u64,
    id: u64,
    i: Instruction,
    out: &mut [u8],
    at: usize,
    write: bool,
) -> Result<u64, Refusal>
    requires { Ready write (labelled labels id i) at (length out.old) }
    ensures { Makes write (labelled labels id i) at out.old out.new result }
{
    label_at(labels, id)?;
    if write {
        put_instruction(out, at, i);
    }
    Ok(1)
}

#[tactic(auto, unfolding(codegen::specs::Instructions::generate_label, codegen::specs::Context::label_at))]
pub fn generate_label(
    labels: u64,
    id: u64,
    out: &mut [u8],
    at: usize,
    write: bool,
) -> Result<u64, Refusal>
    requires { Ready write (generate_label labels id) at (length out.old) }
    ensures { Makes write (generate_label labels id) at out.old out.new result }
{
    labelled(labels, id, Instruction::Label(id), out, at, write)
}

#[tactic(auto, unfolding(codegen::specs::Instructions::generate_jump, codegen::specs::Context::label_at))]
pub fn generate_jump(
    labels: u64,
    id: u64,
    out: &mut [u8],
    at: usize,
    write: bool,
) -> Result<u64, Refusal>
    requires { Ready write (generate_jump labels id) at (length out.old) }
    ensures { Makes write (generate_jump labels id) at out.old out.new result }
{
    let jump = Instruction::Ctrl {
        op: CtrlOp::Jmp,
        target: Operand::Label(id),
    };
    labelled(labels, id, jump, out, at, write)
}

fn put_branch(out: &mut [u8], at: usize, src: Operand, label: u64)
    requires { at + 192 ≤ length out.old }
    ensures { out.new ≡ write out.old at (list_bytes (branch_of src label)) }
{
    put_load(out, at, Register::RAX, src, Size::U8);
    put_instruction(
        out,
        at + 64,
        Instruction::Binary {
            op: BinOp::Cmp,
            dst: Operand::Reg(Register::RAX),
            src: Operand::Imm(0),
            size: Size::U8,
        },
    );
    put_instruction(
        out,
        at + 128,
        Instruction::Ctrl {
            op: CtrlOp::JmpCC(ConditionCode::E),
            target: Operand::Label(label),
        },
    );
}

// It makes `mov al, cond ; cmp al, 0 ; je target`.
#[tactic(auto, using(crate::proofs::Looked::branch_looked))]
pub fn generate_jmp_if_not(
    context: &Context,
    line: &Line,
    labels: u64,
    out: &mut [u8],
    at: usize,
    write: bool,
) -> Result<u64, Refusal>
    requires { Ready write (generate_jmp_if_not (held context.now) labels (left_of line.now) (operation_of line.now)) at (length out.old) }
    ensures { Makes write (generate_jmp_if_not (held context.now) labels (left_of line.now) (operation_of line.now)) at out.old out.new result }
{
    let src = source(context, line.left())?;
    let label = label_at(labels, line.operation())?;
    if write {
        put_branch(out, at, src, label);
    }
    Ok(3)
}
