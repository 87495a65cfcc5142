// These are Krc's answers on types and operands.
ghost use Rattle.std.specs.Prelude.{◌≡◌, ◌≤◌};
ghost use Rattle.ir.specs.Types.{is_scalar, element_width, bytes, rounded_up, type_size, is_float, is_unsigned, elf_size, operand_size, offset_behind};
ghost use Rattle.ir.specs.Answers.{says};

use crate::{Operand, Type};
use cells::refusals::Refusal;
use x86::enums::Size;

// The bytes of an element stand here by its code, four bits of a number for each.
const WIDTHS: u64 = 0x811_1484_4880;

// What has no width gives 0.
pub fn element_width(code: u64) -> u64
    ensures { (result ≡ element_width code) × (result ≤ 8) }
{
    if 16 <= code {
        return 0;
    }
    (WIDTHS >> (4 * code)) % 16
}

// Frames, and the areas of a call's arguments, are multiples of 16.
pub fn rounded_to_16(n: u64) -> u64
    requires { n ≤ 4294967296 }
    ensures { result ≡ rounded_up 16 n }
{
    (n + 15) / 16 * 16
}

impl Type {
    pub const NO_ARRAY: u64 = 0xffff_ffff_ffff_ffff;

    pub fn is_scalar(self) -> bool
        ensures { result ≡ is_scalar self }
    {
        self.count == Type::NO_ARRAY
    }

    // It gives the bytes of a variable, and 0 where the type has no width.
    #[tactic(auto, unfolding(crate::specs::Types::bytes))]
    pub fn bytes(self) -> u64
        ensures { (result ≡ bytes self) × (result ≤ 8388608) }
    {
        let width = element_width(self.code);
        if self.is_scalar() {
            return width;
        }
        width * self.count.min(1048576)
    }

    #[tactic(auto, unfolding(crate::specs::Types::type_size))]
    pub fn size(self) -> Result<u64, Refusal>
        ensures { says result ≡ type_size self }
    {
        if element_width(self.code) == 0 {
            return Err(Refusal::NoWidth);
        }
        Ok(self.bytes())
    }

    #[tactic(auto, unfolding(crate::specs::Types::is_float))]
    pub fn is_float(self) -> bool
        ensures { result ≡ is_float self }
    {
        self.is_scalar() && matches!(self.code, 5 | 6)
    }

    #[tactic(auto, unfolding(crate::specs::Types::is_unsigned))]
    pub fn is_unsigned(self) -> bool
        ensures { result ≡ is_unsigned self }
    {
        !(self.is_scalar() && matches!(self.code, 1 | 3 | 5 | 6))
    }

    #[tactic(auto, unfolding(crate::specs::Types::elf_size))]
    pub fn to_elf_size(self) -> Size
        ensures { result ≡ elf_size self }
    {
        if !self.is_scalar() {
            return Size::U64;
        }
        match element_width(self.code) {
            1 => Size::U8,
            4 => Size::U32,
            8 => Size::U64,
            _ => Size::NoSize,
        }
    }
}

impl Operand {
    #[tactic(auto, unfolding(crate::specs::Types::operand_size))]
    pub fn size(self) -> Size
        ensures { result ≡ operand_size self }
    {
        match self {
            Operand::Var(v) => v.ty.to_elf_size(),
            Operand::Int(_, short, _) => { if short { Size::U32 } else { Size::U64 } }
            Operand::Float(_) => Size::U64,
            Operand::Bool(_) => Size::U8,
            Operand::Address(_) => Size::U64,
            Operand::DataAddress(_) => Size::U64,
            Operand::Null => Size::NoSize,
        }
    }
}

// The offset of a variable behind one of offset `end` is a multiple of its element's width. A division by a constant is a shift.
pub fn offset_behind(end: u64, ty: Type) -> u64
    requires { end ≤ 1048576 }
    ensures { result ≡ offset_behind end ty }
{
    let size = ty.bytes();
    let sum = end + size;
    let width = element_width(ty.code);
    match width {
        1 => sum,
        4 => (sum + 3) / 4 * 4,
        8 => (sum + 7) / 8 * 8,
        _ => end,
    }
}
