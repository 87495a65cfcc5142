// This is `generate_cast` of Krc's codegen/instructions.rs.
#![tactic(auto)]

ghost use Rattle.std.specs.Prelude.{◌≡◌, ◌+◌, ◌*◌, ◌≤◌, not, ◌&&◌, length};
ghost use Rattle.cells.specs.Cells.{write};
ghost use Rattle.ir.specs.Answers.{says};
ghost use Rattle.ir.specs.Lines.{dest_of, left_of};
ghost use Rattle.x86.specs.Records.{list_bytes};
ghost use Rattle.codegen.specs.Instructions.{is_unsigned_short, zero_extended, generate_cast};
ghost use Rattle.utils.specs.Answers.{held};
ghost use Rattle.utils.specs.Makes.{Makes, Ready};
ghost use Rattle.casts.specs.Casts.{constant_size, is_byte, movzx, source_records, source_operand, source_size, by_width, conversion_of, store, cast_of, cast_made, is_copied};

use cells::refusals::Refusal;
use codegen::shorts::is_unsigned_short;
use instructions::generate_copy;
use ir::lines::Line;
use ir::{Operand as IrOp, VarId};
use records::put_instruction;
use utils::context::Context;
use utils::kinds::{Kind, operand_kind};
use utils::slots::{Slot, look_slot, put_moved};
use utils::{convert_operand, put_load, size_from, source, store_op, var_size};
use x86::enums::{ConvOp, ExtendOp, Instruction, Operand, Size};
use x86::register::Register;

// What is cast is an operand of a kind. A constant is loaded into RAX, by this size; one byte that is no float is widened there.
#[derive(Clone, Copy)]
pub struct Source {
    pub operand: Operand,
    pub constant: Option<Size>,
    pub kind: Kind,
}

impl Source {
    fn is_byte(self) -> bool
        ensures { result ≡ is_byte self.kind }
    {
        !self.kind.float && self.kind.size == 1
    }

    // It counts the records that bring the source to where it is converted.
    #[tactic(auto, using(crate::proofs::Casts::source_count))]
    fn count(self) -> u64
        ensures { (result ≡ length (source_records self)) × (result ≤ 2) }
    {
        u64::from(self.constant.is_some()) + u64::from(self.is_byte())
    }

    // This operand is converted, once these have run.
    fn place(self) -> Operand
        ensures { result ≡ source_operand self }
    {
        if self.constant.is_some() || self.is_byte() {
            Operand::Reg(Register::RAX)
        } else {
            self.operand
        }
    }

    // It is of so many bytes there.
    fn size(self) -> u64
        ensures { result ≡ source_size self }
    {
        if self.is_byte() { 8 } else { self.kind.size }
    }
}

// A constant is loaded at its own size.
fn constant_size(op: IrOp) -> Option<Size>
    ensures { result ≡ constant_size op }
{
    match op {
        IrOp::Int(..) | IrOp::Bool(_) => Some(op.size()),
        _ => None,
    }
}

fn movzx(src: Operand) -> Instruction
    ensures { result ≡ movzx src }
{
    Instruction::Extend {
        op: ExtendOp::Movzx,
        dst: Register::RAX,
        src,
        src_size: Size::U8,
        size: Size::U64,
    }
}

// The source has no records, a constant's load, Movzx, or both.
#[tactic(auto, unfolding(crate::specs::Casts::source_records))]
fn put_source(out: &mut [u8], at: usize, from: Source)
    requires { at + 64 * length (source_records from) ≤ length out.old }
    ensures { out.new ≡ write out.old at (list_bytes (source_records from)) }
{
    if let Some(size) = from.constant {
        put_load(out, at, Register::RAX, from.operand, size);
        if from.is_byte() {
            put_instruction(out, at + 64, movzx(Operand::Reg(Register::RAX)));
        }
        return;
    }
    if from.is_byte() {
        put_instruction(out, at, movzx(from.operand));
    }
}

// There is a conversion for floats of eight bytes, and one for those of four.
fn by_width(n: u64, eight: ConvOp, four: ConvOp) -> ConvOp
    ensures { result ≡ by_width n eight four }
{
    if n == 8 { eight } else { four }
}

// This record converts the source, if any does: between integers RAX has eight bytes already, or Movsxd widens four.
fn conversion(from: Source, to: Kind, dest: VarId) -> Result<Option<Instruction>, Refusal>
    ensures { says result ≡ conversion_of from to dest }
{
    let src = from.place();
    let (op, dst, size) = match (from.kind.float, to.float) {
        (true, true) => (
            by_width(to.size, ConvOp::Cvtss2sd, ConvOp::Cvtsd2ss),
            Register::XMM0,
            Size::NoSize,
        ),
        (false, true) => (
            by_width(to.size, ConvOp::Cvtsi2sd, ConvOp::Cvtsi2ss),
            Register::XMM0,
            size_from(from.size())?,
        ),
        (true, false) => (
            by_width(from.size(), ConvOp::Cvttsd2si, ConvOp::Cvttss2si),
            Register::RAX,
            var_size(dest)?,
        ),
        (false, false) if from.size() == 8 => return Ok(None),
        (false, false) => {
            return Ok(Some(Instruction::Extend {
                op: ExtendOp::Movsxd,
                dst: Register::RAX,
                src,
                src_size: Size::U32,
                size: Size::U64,
            }));
        }
    };
    Ok(Some(Instruction::Convert { op, dst, src, size }))
}

// A float is stored from XMM0, all else from RAX.
fn store(float: bool, slot: Slot) -> Instruction
    ensures { result ≡ store float slot }
{
    let reg = if float { Register::XMM0 } else { Register::RAX };
    Instruction::Binary {
        op: store_op(float),
        dst: slot.var,
        src: Operand::Reg(reg),
        size: slot.size,
    }
}

#[tactic(auto, using(crate::proofs::Casts::cast_length))]
fn put_cast(
    out: &mut [u8],
    at: usize,
    from: Source,
    conversion: Option<Instruction>,
    store: Instruction,
)
    requires { at + 64 * length (cast_of from conversion store) ≤ length out.old }
    ensures { out.new ≡ write out.old at (list_bytes (cast_of from conversion store)) }
{
    put_source(out, at, from);
    let place = at + 64 * from.count() as usize;
    if let Some(converted) = conversion {
        put_instruction(out, place, converted);
        put_instruction(out, place + 64, store);
        return;
    }
    put_instruction(out, place, store);
}

// It makes the source's records, a conversion and the store of its result.
#[tactic(auto, using(crate::proofs::Casts::cast_length), unfolding(crate::specs::Casts::cast_made))]
fn cast_between(
    context: &Context,
    line: &Line,
    kind: Kind,
    to: Kind,
    out: &mut [u8],
    at: usize,
    write: bool,
) -> Result<u64, Refusal>
    requires { Ready write (cast_made (held context.now) (dest_of line.now) (left_of line.now) kind to) at (length out.old) }
    ensures { Makes write (cast_made (held context.now) (dest_of line.now) (left_of line.now) kind to) at out.old out.new result }
{
    let src = line.left();
    let dest = line.dest();
    let from = Source {
        operand: convert_operand(context, src)?,
        constant: constant_size(src),
        kind,
    };
    let conversion = conversion(from, to, dest)?;
    let slot = look_slot(context, dest)?;
    if write {
        put_cast(out, at, from, conversion, store(to.float, slot));
    }
    Ok(from.count() + u64::from(conversion.is_some()) + 1)
}

// It says whether a cast that is no copy widens with zeros.
fn is_zero_extended(op: IrOp, to: Kind) -> bool
    ensures { result ≡ (not to.float && is_unsigned_short op) }
{
    !to.float && is_unsigned_short(op)
}

// An unsigned short goes to an integer of eight bytes: a four-byte load clears the upper half of RAX.
#[tactic(auto, using(crate::proofs::Casts::zero_extended_looked))]
fn zero_extended(
    context: &Context,
    line: &Line,
    out: &mut [u8],
    at: usize,
    write: bool,
) -> Result<u64, Refusal>
    requires { Ready write (zero_extended (held context.now) (dest_of line.now) (left_of line.now)) at (length out.old) }
    ensures { Makes write (zero_extended (held context.now) (dest_of line.now) (left_of line.now)) at out.old out.new result }
{
    let src = source(context, line.left())?;
    let slot = look_slot(context, line.dest())?;
    if write {
        put_moved(out, at, src, Size::U32, slot);
    }
    Ok(2)
}

// The low bytes are enough where both are floats of one size, or both are integers and dest is no wider.
#[tactic(auto, unfolding(crate::specs::Casts::is_copied))]
fn is_copy(from: Kind, to: Kind) -> bool
    ensures { result ≡ is_copied from to }
{
    from.float == to.float && (from.size == to.size || !to.float) && to.size <= from.size
}

#[tactic(auto, using(crate::proofs::Casts::cast_looked))]
pub fn generate_cast(
    context: &Context,
    line: &Line,
    out: &mut [u8],
    at: usize,
    write: bool,
) -> Result<u64, Refusal>
    requires { Ready write (generate_cast (held context.now) (dest_of line.now) (left_of line.now)) at (length out.old) }
    ensures { Makes write (generate_cast (held context.now) (dest_of line.now) (left_of line.now)) at out.old out.new result }
{
    let kind = operand_kind(context, line.left())?;
    let to = operand_kind(context, IrOp::Var(line.dest()))?;
    if is_copy(kind, to) {
        return generate_copy(context, line, out, at, write);
    }
    if is_zero_extended(line.left(), to) {
        return zero_extended(context, line, out, at, write);
    }
    cast_between(context, line, kind, to, out, at, write)
}
