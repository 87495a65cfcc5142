// This is Krc's codegen/utils.rs, with `convert_operand` of instructions.rs, which it uses.
//
// A maker of records makes its look-ups in the Rust's order. Then, where it is to write, it puts its records one by one into the lent slice, each as an
// `Instruction`. It answers how many they are, written or not, or a refusal. So the pass that counts and the pass that writes are one.
#![tactic(auto)]

pub mod context;
pub mod kinds;
pub mod slots;

ghost use Rattle.std.specs.Prelude.{◌≡◌, [], ◌∷◌, ◌+◌, ◌≤◌, length};
ghost use Rattle.cells.specs.Cells.{minus, write};
ghost use Rattle.ir.specs.Types.{ok};
ghost use Rattle.x86.specs.Records.{record_of, record_bytes};
ghost use Rattle.ir.specs.Answers.{says};
ghost use Rattle.codegen.specs.Context.{float_short};
ghost use Rattle.codegen.specs.Utils.{size_from, var_size, convert_var, convert_operand, is_one_byte, is_constant, load_operand};
ghost use Rattle.codegen.specs.Instructions.{move};
ghost use Rattle.codegen.specs.Frame.{store_of};
ghost use Rattle.utils.specs.Answers.{held};
ghost use Rattle.utils.specs.Sources.{source_of, float_size_of, own_size_of, is_string, load_of};
ghost use Rattle.utils.specs.Makes.{alone, Makes, Ready};

use crate::context::Context;
use cells::refusals::Refusal;
use ir::{Operand as IrOp, VarId};
use records::put_instruction;
use x86::enums::{BinOp, ExtendOp, Instruction, Operand, Size};
use x86::mem_address::{Base, MemAddress};
use x86::register::Register;

// This is Krc's `Size::from`.
#[tactic(auto, unfolding(codegen::specs::Utils::size_from))]
pub fn size_from(n: u64) -> Result<Size, Refusal>
    ensures { says result ≡ size_from n }
{
    match n {
        1 => Ok(Size::U8),
        2 => Ok(Size::U16),
        4 => Ok(Size::U32),
        8 => Ok(Size::U64),
        _ => Err(Refusal::OddWidth),
    }
}

#[tactic(auto, unfolding(codegen::specs::Utils::var_size))]
pub fn var_size(v: VarId) -> Result<Size, Refusal>
    ensures { says result ≡ var_size v }
{
    size_from(v.ty.size()?)
}

// `convert_operand` of a variable is its slot.
#[tactic(auto, unfolding(codegen::specs::Utils::convert_var))]
pub fn convert_var(context: &Context, v: VarId) -> Result<Operand, Refusal>
    ensures { says result ≡ convert_var (held context.now) v }
{
    Ok(Operand::MemoryAddress(MemAddress {
        base: Base::Rbp,
        disp: context.displacement(v.id)?,
    }))
}

#[tactic(auto, unfolding(codegen::specs::Utils::convert_operand), using(crate::proofs::Rest::float_place))]
pub fn convert_operand(context: &Context, op: IrOp) -> Result<Operand, Refusal>
    ensures { says result ≡ convert_operand (held context.now) op }
{
    match op {
        IrOp::Var(v) => convert_var(context, v),
        IrOp::Int(n, _, _) => Ok(Operand::Imm(n)),
        IrOp::Float(k) => {
            context.float_short(k)?;
            Ok(Operand::MemoryAddress(MemAddress {
                base: Base::Float,
                disp: k,
            }))
        }
        IrOp::Bool(b) => Ok(Operand::Imm(u64::from(b))),
        IrOp::Address(_) | IrOp::DataAddress(_) => Err(Refusal::NoLowering),
        IrOp::Null => Ok(Operand::Imm(0)),
    }
}

// It gives the pattern of minus `n`.
pub fn negated(n: u64) -> u64
    ensures { result ≡ minus n }
{
    if n == 0 {
        0
    } else {
        0xffff_ffff_ffff_ffff - n + 1
    }
}

// An operand is loaded from a string's address, or from what it is converted to.
pub fn source(context: &Context, op: IrOp) -> Result<Operand, Refusal>
    ensures { says result ≡ source_of (held context.now) op }
{
    let IrOp::DataAddress(id) = op else {
        return convert_operand(context, op);
    };
    Ok(Operand::MemoryAddress(MemAddress {
        base: Base::String,
        disp: context.string_at(id)?,
    }))
}

// A float constant has its size by its table, and eight bytes where it is in none.
fn float_size(context: &Context, id: u64) -> Size
    ensures { result ≡ float_size_of (float_short (held context.now) id) }
{
    match context.float_short(id) {
        Ok(true) => Size::U32,
        Ok(false) | Err(_) => Size::U64,
    }
}

// An operand has this size where none is given. It is asked for behind the look-up of the source, which refuses a float constant that is in no table.
pub fn own_size(context: &Context, op: IrOp) -> Size
    ensures { result ≡ own_size_of (held context.now) op }
{
    if let IrOp::Float(id) = op {
        return float_size(context, id);
    }
    op.size()
}

fn is_string(src: Operand) -> bool
    ensures { result ≡ is_string src }
{
    matches!(
        src,
        Operand::MemoryAddress(MemAddress {
            base: Base::String,
            ..
        })
    )
}

fn is_one_byte(size: Size) -> bool
    ensures { result ≡ is_one_byte size }
{
    matches!(size, Size::U8)
}

fn is_constant(src: Operand) -> bool
    ensures { result ≡ is_constant src }
{
    matches!(src, Operand::Imm(_))
}

// A float is stored by StoreF, all else by Mov.
pub fn store_op(float: bool) -> BinOp
    ensures { result ≡ store_of float }
{
    if float { BinOp::StoreF } else { BinOp::Mov }
}

pub fn mov(dst: Operand, src: Operand, size: Size) -> Instruction
    ensures { result ≡ move dst src size }
{
    Instruction::Binary {
        op: BinOp::Mov,
        dst,
        src,
        size,
    }
}

// One record brings a source into a register: a string by Lea; an XMM register is loaded by LoadF; one byte by Movzx, or by a four-byte Mov of a constant;
// the rest by Mov. It is inlined, since the source would go through memory.
#[inline(always)]
#[tactic(auto, unfolding(codegen::specs::Utils::load_from))]
pub fn put_load(out: &mut [u8], at: usize, reg: Register, src: Operand, size: Size)
    requires { at + 64 ≤ length out.old }
    ensures { out.new ≡ write out.old at (record_bytes (record_of (load_of reg src size))) }
{
    if is_string(src) {
        put_instruction(
            out,
            at,
            Instruction::Lea {
                src,
                dst: reg,
                size: Size::NoSize,
            },
        );
        return;
    }
    if reg.is_xmm() {
        put_instruction(
            out,
            at,
            Instruction::Binary {
                op: BinOp::LoadF,
                dst: Operand::Reg(reg),
                src,
                size,
            },
        );
        return;
    }
    if is_one_byte(size) {
        if is_constant(src) {
            put_instruction(
                out,
                at,
                Instruction::Binary {
                    op: BinOp::Mov,
                    dst: Operand::Reg(reg),
                    src,
                    size: Size::U32,
                },
            );
            return;
        }
        put_instruction(
            out,
            at,
            Instruction::Extend {
                op: ExtendOp::Movzx,
                dst: reg,
                src,
                src_size: Size::U8,
                size: Size::U64,
            },
        );
        return;
    }
    put_instruction(
        out,
        at,
        Instruction::Binary {
            op: BinOp::Mov,
            dst: Operand::Reg(reg),
            src,
            size,
        },
    );
}

// It makes a record that asks for no look-up. Its form is any.
pub fn one_record(out: &mut [u8], at: usize, i: Instruction, write: bool) -> Result<u64, Refusal>
    requires { Ready write (ok (i ∷ [])) at (length out.old) }
    ensures { Makes write (ok (i ∷ [])) at out.old out.new result }
{
    if write {
        put_instruction(out, at, i);
    }
    Ok(1)
}

// This is `load_operand` with no size given: one record brings an operand, at its own size, into a register.
pub fn load_operand(
    context: &Context,
    reg: Register,
    op: IrOp,
    out: &mut [u8],
    at: usize,
    write: bool,
) -> Result<u64, Refusal>
    requires { Ready write (alone (load_operand (held context.now) reg op Size.NoSize)) at (length out.old) }
    ensures { Makes write (alone (load_operand (held context.now) reg op Size.NoSize)) at out.old out.new result }
{
    let src = source(context, op)?;
    if write {
        put_load(out, at, reg, src, own_size(context, op));
    }
    Ok(1)
}
