// Records are written here: the eight cells of an instruction, as 64 bytes of a lent slice.
#![tactic(auto, unfolding(x86::specs::Records::record_of))]

ghost use Rattle.std.specs.Prelude.{◌≡◌, ◌+◌, ◌≤◌, length};
ghost use Rattle.cells.specs.Cells.{write};
ghost use Rattle.x86.specs.Records.{tag_of, value_of, size_code, record_of, record_bytes};
ghost use Rattle.records.specs.Cells.{record_cells};
ghost use Rattle.records.specs.Forms.{put_of};

use x86::enums::{Instruction, Operand, Size};

// The form, and the operation's number.
#[inline(always)]
fn codes_of(i: Instruction) -> (u64, u64)
    ensures form { result.0 ≡ (record_of i).form }
    ensures operation { result.1 ≡ (record_of i).operation }
{
    match i {
        Instruction::Binary { op, .. } => (0, op.into()),
        Instruction::ComplexBinary { op, .. } => (4, op.into()),
        Instruction::Convert { op, .. } => (5, op.into()),
        Instruction::Ctrl { op, .. } => (6, op.into()),
        Instruction::Extend { op, .. } => (7, op.into()),
        Instruction::Lea { .. } => (8, 0),
        Instruction::Label(_) => (9, 0),
        Instruction::Prefix { prefix, op, .. } => (11, 16 * u64::from(prefix) + u64::from(op)),
        Instruction::SetCC { op, .. } => (12, op.into()),
        Instruction::Shift { op, .. } => (13, op.into()),
        Instruction::Stack { op, .. } => (14, op.into()),
        Instruction::Unary { op, .. } => (17, op.into()),
    }
}

// The destination and the source.
#[inline(always)]
fn operands_of(i: Instruction) -> (Operand, Operand)
    ensures dst_tag { tag_of result.0 ≡ (record_of i).dst_tag }
    ensures dst { value_of result.0 ≡ (record_of i).dst }
    ensures src_tag { tag_of result.1 ≡ (record_of i).src_tag }
    ensures src { value_of result.1 ≡ (record_of i).src }
{
    match i {
        Instruction::Binary { dst, src, .. } => (dst, src),
        Instruction::ComplexBinary { dst, src, .. } => (dst, src),
        Instruction::Convert { dst, src, .. } => (Operand::Reg(dst), src),
        Instruction::Ctrl { target, .. } => (target, Operand::NoOperand),
        Instruction::Extend { dst, src, .. } => (Operand::Reg(dst), src),
        Instruction::Lea { dst, src, .. } => (Operand::Reg(dst), src),
        Instruction::Label(n) => (Operand::Label(n), Operand::NoOperand),
        Instruction::Prefix { .. } => (Operand::NoOperand, Operand::NoOperand),
        Instruction::SetCC { dst, .. } => (dst, Operand::NoOperand),
        Instruction::Shift { dst, src, .. } => (dst, src),
        Instruction::Stack { value, .. } => (value, Operand::NoOperand),
        Instruction::Unary { dst, .. } => (dst, Operand::NoOperand),
    }
}

// The size, and the source's.
#[inline(always)]
fn sizes_of(i: Instruction) -> (Size, Size)
    ensures size { size_code result.0 ≡ (record_of i).size }
    ensures src_size { size_code result.1 ≡ (record_of i).src_size }
{
    match i {
        Instruction::Extend { size, src_size, .. } => (size, src_size),
        Instruction::Ctrl { .. } | Instruction::Label(_) | Instruction::SetCC { .. } => {
            (Size::NoSize, Size::NoSize)
        }
        Instruction::Binary { size, .. }
        | Instruction::ComplexBinary { size, .. }
        | Instruction::Convert { size, .. }
        | Instruction::Lea { size, .. }
        | Instruction::Prefix { size, .. }
        | Instruction::Shift { size, .. }
        | Instruction::Stack { size, .. }
        | Instruction::Unary { size, .. } => (size, Size::NoSize),
    }
}

// The cells of an instruction's record.
#[inline(always)]
fn cells_of(i: Instruction) -> [u64; 8]
    ensures { result ≡ record_cells (record_of i) }
{
    let (form, operation) = codes_of(i);
    let (dst, src) = operands_of(i);
    let (size, src_size) = sizes_of(i);
    [
        form,
        operation,
        dst.tag(),
        dst.value(),
        src.tag(),
        src.value(),
        size.into(),
        src_size.into(),
    ]
}

// It writes the record of an instruction from `at`; every other byte stays. Where the form is known the match vanishes, and the value becomes eight stores.
#[inline(always)]
pub fn put_instruction(out: &mut [u8], at: usize, i: Instruction)
    requires { at + 64 ≤ length out.old }
    ensures { out.new ≡ write out.old at (record_bytes (record_of i)) }
{
    let words = cells_of(i);
    for k in 0..8 {
        cells::put_word(out, at + 8 * k, words[k]);
    }
}

// It writes the record of an instruction of the form with this number. Of an instruction of another form it writes nothing.
pub fn put_form(form: u64, out: &mut [u8], at: usize, i: Instruction)
    requires { at + 64 ≤ length out.old }
    ensures { out.new ≡ put_of form i out.old at }
{
    let (own, _) = codes_of(i);
    if own == form {
        put_instruction(out, at, i);
    }
}
