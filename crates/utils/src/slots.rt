// A variable that is stored to has a slot and a size.
ghost use Rattle.std.specs.Prelude.{◌≡◌, ◌+◌, ◌≤◌, length};
ghost use Rattle.cells.specs.Cells.{write};
ghost use Rattle.x86.specs.Records.{list_bytes};
ghost use Rattle.ir.specs.Answers.{says};
ghost use Rattle.utils.specs.Answers.{held};
ghost use Rattle.utils.specs.Slots.{look_slot, moved_of};

use crate::context::Context;
use crate::{convert_var, mov, put_load, var_size};
use cells::refusals::Refusal;
use ir::VarId;
use records::put_instruction;
use x86::enums::{Operand, Size};
use x86::register::Register;

#[derive(Clone, Copy)]
pub struct Slot {
    pub var: Operand,
    pub size: Size,
}

// Of a binary operation the look-ups find what its operands are loaded from, or what right is converted to, and dest.
#[derive(Clone, Copy)]
pub struct Sides {
    pub left: Operand,
    pub right: Operand,
    pub dest: Slot,
}

// The slot is looked up before its size.
pub fn look_slot(context: &Context, v: VarId) -> Result<Slot, Refusal>
    ensures { says result ≡ look_slot (held context.now) v }
{
    let var = convert_var(context, v)?;
    let size = var_size(v)?;
    Ok(Slot { var, size })
}

// It loads a source by the size `by`, and stores RAX to a slot.
pub fn put_moved(out: &mut [u8], at: usize, src: Operand, by: Size, slot: Slot)
    requires { at + 128 ≤ length out.old }
    ensures { out.new ≡ write out.old at (list_bytes (moved_of src by slot)) }
{
    put_load(out, at, Register::RAX, src, by);
    put_instruction(
        out,
        at + 64,
        mov(slot.var, Operand::Reg(Register::RAX), slot.size),
    );
}
