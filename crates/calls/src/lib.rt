// These are the calls of Krc's codegen/instructions.rs: `generate_call`, with `float_parameter` and `normal_param`.
#![tactic(auto)]

pub mod arguments;

ghost use Rattle.std.specs.Prelude.{◌≡◌, cond, ◌+◌, ◌≤◌, length};
ghost use Rattle.cells.specs.Cells.{write};
ghost use Rattle.ir.specs.Types.{ok};
ghost use Rattle.x86.specs.Records.{record_of, record_bytes};
ghost use Rattle.x86.specs.Registers.{xmm, RAX};
ghost use Rattle.codegen.specs.Instructions.{floating, excess, load_arguments, push_arguments, move_stack, store_result, generate_call};
ghost use Rattle.utils.specs.Answers.{held};
ghost use Rattle.utils.specs.Makes.{Makes, Ready};
ghost use Rattle.calls.specs.Calls.{args_of, push_one, stack_arguments, call_raised, result_of, call_symbol};

use crate::arguments::Arguments;
use cells::refusals::Refusal;
use codegen::registers::Taken;
use ir::types::rounded_to_16;
use ir::{Operand as IrOp, VarId};
use records::put_instruction;
use utils::context::Context;
use utils::slots::{Slot, look_slot};
use utils::{load_operand, mov, one_record, store_op};
use x86::enums::{BinOp, CtrlOp, Instruction, Operand, Size};
use x86::mem_address::{Base, MemAddress};
use x86::register::Register;

// It says whether an argument is a float.
fn is_floating(op: IrOp) -> bool
    ensures { result ≡ floating op }
{
    match op {
        IrOp::Var(v) => v.ty.is_float(),
        IrOp::Float(_) => true,
        _ => false,
    }
}

// It counts the arguments in excess. Six find their registers, whatever they are.
fn count_excess(arguments: &Arguments) -> u64
    ensures { result ≡ length (excess floating 0 0 (args_of arguments.now)) }
{
    if arguments.count <= 6 {
        return 0;
    }
    let mut taken = Taken::NONE;
    for i in 0..arguments.count {
        taken = taken.with(is_floating(arguments.at(i)));
    }
    taken.stack
}

// An argument in excess goes through RAX to RSP plus 8j.
fn push_one(
    context: &Context,
    j: u64,
    op: IrOp,
    out: &mut [u8],
    at: usize,
    write: bool,
) -> Result<u64, Refusal>
    requires j_bound { j ≤ 64 }
    requires at_bound { at ≤ 8589934592 }
    requires ready { Ready write (push_one (held context.now) j op) at (length out.old) }
    ensures { Makes write (push_one (held context.now) j op) at out.old out.new result }
{
    load_operand(context, Register::RAX, op, out, at, write)?;
    let place = Operand::MemoryAddress(MemAddress {
        base: Base::Rsp,
        disp: 8 * j,
    });
    let push = mov(place, Operand::Reg(Register::RAX), Size::U64);
    one_record(out, at + 64, push, write)?;
    Ok(2)
}

// It puts the arguments in excess on the stack; one that finds a register has no record there.
fn push_arguments(
    context: &Context,
    arguments: &Arguments,
    out: &mut [u8],
    at: usize,
    write: bool,
) -> Result<u64, Refusal>
    requires at_bound { at ≤ 8589926400 }
    requires ready { Ready write (push_arguments (held context.now) 0 (excess floating 0 0 (args_of arguments.now))) at (length out.old) }
    ensures { Makes write (push_arguments (held context.now) 0 (excess floating 0 0 (args_of arguments.now))) at out.old out.new result }
{
    let mut taken = Taken::NONE;
    for i in 0..arguments.count {
        let op = arguments.at(i);
        let float = is_floating(op);
        if taken.is_beyond(float) {
            let place = at + 128 * taken.stack as usize;
            push_one(context, taken.stack, op, out, place, write)?;
        }
        taken = taken.with(float);
    }
    Ok(2 * taken.stack)
}

// RSP is lowered or raised by the area of `k` arguments in excess, if there are any of them.
fn move_stack(op: BinOp, k: u64, out: &mut [u8], at: usize, write: bool) -> Result<u64, Refusal>
    requires k_bound { k ≤ 64 }
    requires ready { Ready write (ok (move_stack op k)) at (length out.old) }
    ensures { Makes write (ok (move_stack op k)) at out.old out.new result }
{
    if k == 0 {
        return Ok(0);
    }
    let moved = Instruction::Binary {
        op,
        dst: Operand::Reg(Register::RSP),
        src: Operand::Imm(rounded_to_16(8 * k)),
        size: Size::NoSize,
    };
    one_record(out, at, moved, write)
}

// RSP is lowered, and the `k` arguments in excess are put in its area.
fn stack_arguments(
    context: &Context,
    arguments: &Arguments,
    k: u64,
    out: &mut [u8],
    at: usize,
    write: bool,
) -> Result<u64, Refusal>
    requires k_value { k ≡ length (excess floating 0 0 (args_of arguments.now)) }
    requires at_bound { at ≤ 4294967296 }
    requires ready { Ready write (stack_arguments (held context.now) (args_of arguments.now)) at (length out.old) }
    ensures { Makes write (stack_arguments (held context.now) (args_of arguments.now)) at out.old out.new result }
{
    if k == 0 {
        return Ok(0);
    }
    move_stack(BinOp::Sub, k, out, at, write)?;
    let pushes = push_arguments(context, arguments, out, at + 64, write)?;
    Ok(1 + pushes)
}

// It loads the arguments that find a register, and then the number of floats among them into RAX. One in excess has no record here.
fn load_arguments(
    context: &Context,
    arguments: &Arguments,
    out: &mut [u8],
    at: usize,
    write: bool,
) -> Result<u64, Refusal>
    requires at_bound { at ≤ 8589926400 }
    requires ready { Ready write (load_arguments (held context.now) 0 0 (args_of arguments.now)) at (length out.old) }
    ensures { Makes write (load_arguments (held context.now) 0 0 (args_of arguments.now)) at out.old out.new result }
{
    let mut taken = Taken::NONE;
    for i in 0..arguments.count {
        let op = arguments.at(i);
        let float = is_floating(op);
        if !taken.is_beyond(float) {
            let place = at + 64 * (taken.words + taken.floats) as usize;
            load_operand(context, taken.register(float), op, out, place, write)?;
        }
        taken = taken.with(float);
    }
    let loads = taken.words + taken.floats;
    let floats = Operand::Imm(taken.floats);
    let counted = mov(Operand::Reg(Register::RAX), floats, Size::NoSize);
    one_record(out, at + 64 * loads as usize, counted, write)?;
    Ok(loads + 1)
}

// RSP is raised again behind the call.
fn call_raised(symbol: u64, k: u64, out: &mut [u8], at: usize, write: bool) -> Result<u64, Refusal>
    requires k_bound { k ≤ 64 }
    requires at_bound { at ≤ 8589934592 }
    requires ready { Ready write (ok (call_raised symbol k)) at (length out.old) }
    ensures { Makes write (ok (call_raised symbol k)) at out.old out.new result }
{
    let call = Instruction::Ctrl {
        op: CtrlOp::Call,
        target: Operand::Sym(symbol),
    };
    one_record(out, at, call, write)?;
    let raised = move_stack(BinOp::Add, k, out, at + 64, write)?;
    Ok(1 + raised)
}

fn result_register(float: bool) -> Register
    ensures { result ≡ cond float (xmm 0) RAX }
{
    if float { Register::XMM0 } else { Register::RAX }
}

fn put_result(out: &mut [u8], at: usize, slot: Slot, float: bool)
    requires { at + 64 ≤ length out.old }
    ensures { out.new ≡ write out.old at (record_bytes (record_of (result_of float slot))) }
{
    put_instruction(
        out,
        at,
        Instruction::Binary {
            op: store_op(float),
            dst: slot.var,
            src: Operand::Reg(result_register(float)),
            size: slot.size,
        },
    );
}

// A result that is kept is stored.
fn store_result(
    context: &Context,
    dest: Option<VarId>,
    out: &mut [u8],
    at: usize,
    write: bool,
) -> Result<u64, Refusal>
    requires { Ready write (store_result (held context.now) dest) at (length out.old) }
    ensures { Makes write (store_result (held context.now) dest) at out.old out.new result }
{
    let Some(v) = dest else {
        return Ok(0);
    };
    let slot = look_slot(context, v)?;
    if write {
        put_result(out, at, slot, v.ty.is_float());
    }
    Ok(1)
}

// The result is stored behind the call, when RSP is raised.
fn call_symbol(
    context: &Context,
    dest: Option<VarId>,
    symbol: u64,
    k: u64,
    out: &mut [u8],
    at: usize,
    write: bool,
) -> Result<u64, Refusal>
    requires k_bound { k ≤ 64 }
    requires at_bound { at ≤ 8589934592 }
    requires ready { Ready write (call_symbol (held context.now) dest symbol k) at (length out.old) }
    ensures { Makes write (call_symbol (held context.now) dest symbol k) at out.old out.new result }
{
    let call = call_raised(symbol, k, out, at, write)?;
    let store = store_result(context, dest, out, at + 64 * call as usize, write)?;
    Ok(call + store)
}

// It makes `call symbol` with its arguments: the floats go into XMM0 to XMM7, the others into RDI, RSI, RDX, RCX, R8 and R9, and those in excess of them onto
// the stack.
pub fn generate_call(
    context: &Context,
    arguments: &Arguments,
    dest: Option<VarId>,
    symbol: u64,
    out: &mut [u8],
    at: usize,
    write: bool,
) -> Result<u64, Refusal>
    requires at_bound { at ≤ 4294967296 }
    requires ready { Ready write (generate_call (held context.now) dest symbol (args_of arguments.now)) at (length out.old) }
    ensures { Makes write (generate_call (held context.now) dest symbol (args_of arguments.now)) at out.old out.new result }
{
    let k = count_excess(arguments);
    let pushes = stack_arguments(context, arguments, k, out, at, write)?;
    let place = at + 64 * pushes as usize;
    let loads = load_arguments(context, arguments, out, place, write)?;
    let end = place + 64 * loads as usize;
    let rest = call_symbol(context, dest, symbol, k, out, end, write)?;
    Ok(pushes + loads + rest)
}
