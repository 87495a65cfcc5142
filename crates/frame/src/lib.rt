// This is the frame of Krc's codegen/generation.rs: `var_offsets` and `func_prologue`.
#![tactic(auto)]

mod parameters;

ghost use Rattle.std.specs.Prelude.{◌≡◌, ◌+◌, ◌*◌, ◌≤◌, ◌<◌, length};
ghost use Rattle.cells.specs.Cells.{cells, write};
ghost use Rattle.ir.specs.Answers.{says};
ghost use Rattle.ir.specs.Types.{ok};
ghost use Rattle.ir.specs.Function.{vars_at};
ghost use Rattle.layout.specs.Limits.{most_variables, most_parameters};
ghost use Rattle.layout.specs.Layout.{cursor, types_check};
ghost use Rattle.x86.specs.Records.{record_of, record_bytes, list_bytes};
ghost use Rattle.codegen.specs.Instructions.{excess};
ghost use Rattle.codegen.specs.Frame.{registers_of, store_params, copy_params, is_float_param, func_prologue};
ghost use Rattle.utils.specs.Answers.{held};
ghost use Rattle.utils.specs.Makes.{Makes, Ready};
ghost use Rattle.frame.specs.Sizes.{sizes_at, offsets_after};
ghost use Rattle.frame.specs.Stores.{params_of, entering, param_of, store_one, store_param, look_copied, copy_one};

use crate::parameters::Parameters;
use cells::refusals::Refusal;
use codegen::registers::{Taken, param_register, registers};
use ir::VarId;
use ir::read::type_at;
use ir::types::{element_width, offset_behind};
use records::put_instruction;
use utils::context::Context;
use utils::slots::{Slot, look_slot, put_moved};
use utils::{convert_var, store_op, var_size};
use x86::enums::{BinOp, Instruction, Operand, Size, StackOp};
use x86::mem_address::{Base, MemAddress};
use x86::register::Register;

// This is Krc's `var_offsets`, on the `n` variable types from cell `from` on, whose layout is right. It gives the last offset, or refuses a variable that has no
// width. The numbers behind the offsets stay as they were.
pub fn var_offsets(s: &[u8], n: u64, from: usize, offsets: &mut [u64; 256]) -> Result<u64, Refusal>
    requires n_le_most_variables { n ≤ most_variables }
    requires offsets_len { length offsets.old ≡ 256 }
    requires from_value { types_check s.now n 0 (cursor from) ≡ Ok (cursor (from + 2 * n)) }
    ensures value { says result ≡ sizes_at s.now n from }
    ensures offsets_after { offsets.new ≡ offsets_after s.now n from offsets.old }
{
    let mut end: u64 = 0;
    let mut widths = true;
    for i in 0..n as usize {
        let ty = type_at(s, from + 2 * i);
        end = offset_behind(end, ty);
        offsets[i] = end;
        widths &= element_width(ty.code) != 0;
    }
    if widths {
        Ok(end)
    } else {
        Err(Refusal::NoWidth)
    }
}

fn put_param(out: &mut [u8], at: usize, slot: Slot, op: BinOp, reg: Register)
    requires { at + 64 ≤ length out.old }
    ensures { out.new ≡ write out.old at (record_bytes (record_of (param_of op reg slot))) }
{
    put_instruction(
        out,
        at,
        Instruction::Binary {
            op,
            dst: slot.var,
            src: Operand::Reg(reg),
            size: slot.size,
        },
    );
}

// A parameter goes from the register of its rank into its slot.
fn store_one(
    context: &Context,
    float: bool,
    k: u64,
    p: VarId,
    out: &mut [u8],
    at: usize,
    write: bool,
) -> Result<u64, Refusal>
    requires k_in_bounds { k < length (registers_of float) }
    requires ready { Ready write (store_one (held context.now) float k p) at (length out.old) }
    ensures { Makes write (store_one (held context.now) float k p) at out.old out.new result }
{
    let slot = look_slot(context, p)?;
    if write {
        put_param(out, at, slot, store_op(float), param_register(float, k));
    }
    Ok(1)
}

// There is no record for a parameter of the other kind, or where no register is left: that one is in excess.
fn store_param(
    context: &Context,
    float: bool,
    k: u64,
    p: VarId,
    out: &mut [u8],
    at: usize,
    write: bool,
) -> Result<u64, Refusal>
    requires { Ready write (store_param (held context.now) float k p) at (length out.old) }
    ensures { Makes write (store_param (held context.now) float k p) at out.old out.new result }
{
    if p.ty.is_float() != float || registers(float) <= k {
        return Ok(0);
    }
    store_one(context, float, k, p, out, at, write)
}

// `float` is what the definition `store_params` is given: both are one loop.
// It stores the parameters that are floats, or those that are not.
fn store_params(
    context: &Context,
    parameters: &Parameters,
    float: bool,
    out: &mut [u8],
    at: usize,
    write: bool,
) -> Result<u64, Refusal>
    requires at_bound { at ≤ 1024 }
    requires ready { Ready write (store_params (held context.now) float 0 (params_of parameters.now)) at (length out.old) }
    ensures { Makes write (store_params (held context.now) float 0 (params_of parameters.now)) at out.old out.new result }
{
    let mut k: u64 = 0;
    for i in 0..parameters.count {
        let place = at + 64 * k as usize;
        k += store_param(context, float, k, parameters.at(i), out, place, write)?;
    }
    Ok(k)
}

// Of a parameter in excess the size is looked up before the slot.
fn look_copied(context: &Context, p: VarId) -> Result<Slot, Refusal>
    ensures { says result ≡ look_copied (held context.now) p }
{
    let size = var_size(p)?;
    let var = convert_var(context, p)?;
    Ok(Slot { var, size })
}

// It is copied from RBP plus 16 plus 8j, through RAX, into its slot.
fn copy_one(
    context: &Context,
    j: u64,
    p: VarId,
    out: &mut [u8],
    at: usize,
    write: bool,
) -> Result<u64, Refusal>
    requires j_le_most_parameters { j ≤ most_parameters }
    requires ready { Ready write (copy_one (held context.now) j p) at (length out.old) }
    ensures { Makes write (copy_one (held context.now) j p) at out.old out.new result }
{
    let slot = look_copied(context, p)?;
    if write {
        let place = Operand::MemoryAddress(MemAddress {
            base: Base::Rbp,
            disp: 16 + 8 * j,
        });
        put_moved(out, at, place, slot.size, slot);
    }
    Ok(2)
}

// It copies the parameters in excess; one that came in a register has no copy. Six have come in registers, whatever they are.
fn copy_params(
    context: &Context,
    parameters: &Parameters,
    out: &mut [u8],
    at: usize,
    write: bool,
) -> Result<u64, Refusal>
    requires at_bound { at ≤ 2048 }
    requires ready { Ready write (copy_params (held context.now) 0 (excess is_float_param 0 0 (params_of parameters.now))) at (length out.old) }
    ensures { Makes write (copy_params (held context.now) 0 (excess is_float_param 0 0 (params_of parameters.now))) at out.old out.new result }
{
    if parameters.count <= 6 {
        return Ok(0);
    }
    let mut taken = Taken::NONE;
    for i in 0..parameters.count {
        let p = parameters.at(i);
        let float = p.ty.is_float();
        if taken.is_beyond(float) {
            let place = at + 128 * taken.stack as usize;
            copy_one(context, taken.stack, p, out, place, write)?;
        }
        taken = taken.with(float);
    }
    Ok(2 * taken.stack)
}

// It writes `push rbp ; mov rbp, rsp ; sub rsp, bytes` at the start.
fn put_enter(out: &mut [u8], bytes: u64)
    requires { 192 ≤ length out.old }
    ensures { out.new ≡ write out.old 0 (list_bytes (entering bytes)) }
{
    let rbp = Operand::Reg(Register::RBP);
    let rsp = Operand::Reg(Register::RSP);
    put_instruction(
        out,
        0,
        Instruction::Stack {
            op: StackOp::Push,
            value: rbp,
            size: Size::NoSize,
        },
    );
    put_instruction(
        out,
        64,
        Instruction::Binary {
            op: BinOp::Mov,
            dst: rbp,
            src: rsp,
            size: Size::NoSize,
        },
    );
    put_instruction(
        out,
        128,
        Instruction::Binary {
            op: BinOp::Sub,
            dst: rsp,
            src: Operand::Imm(bytes),
            size: Size::NoSize,
        },
    );
}

fn enter(out: &mut [u8], bytes: u64, write: bool) -> Result<u64, Refusal>
    requires { Ready write (ok (entering bytes)) 0 (length out.old) }
    ensures { Makes write (ok (entering bytes)) 0 out.old out.new result }
{
    if write {
        put_enter(out, bytes);
    }
    Ok(3)
}

// Then each of the `n` parameters, from cell `from` on, goes from its register, or from the caller's stack, into its slot.
pub fn func_prologue(
    context: &Context,
    sheet: &[u8],
    n: u64,
    from: usize,
    bytes: u64,
    out: &mut [u8],
    write: bool,
) -> Result<u64, Refusal>
    requires n_bound { from + 3 * n ≤ cells sheet.now }
    requires n_le_most_parameters { n ≤ most_parameters }
    requires ready { Ready write (func_prologue (held context.now) bytes (vars_at sheet.now n from)) 0 (length out.old) }
    ensures { Makes write (func_prologue (held context.now) bytes (vars_at sheet.now n from)) 0 out.old out.new result }
{
    let parameters = Parameters {
        sheet,
        count: n,
        from,
    };
    enter(out, bytes, write)?;
    let words = store_params(context, &parameters, false, out, 192, write)?;
    let place = 192 + 64 * words as usize;
    let floats = store_params(context, &parameters, true, out, place, write)?;
    let end = place + 64 * floats as usize;
    let copies = copy_params(context, &parameters, out, end, write)?;
    Ok(3 + words + floats + copies)
}
