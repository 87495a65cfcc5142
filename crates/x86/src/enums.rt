// Here are sizes, operands, operations and instructions. The number of a variant is its code, a position in Krc's enum. A size has its bytes by a shift.
ghost use Rattle.std.specs.Prelude.{◌≡◌, ◌<◌};
ghost use Rattle.x86.specs.Records.{size_code, tag_of, value_of, condition_code, bin_code, shift_code, complex_code, unary_code, stack_code, ctrl_code, prefix_code, string_code, extend_code, conv_code};
ghost use Rattle.x86.specs.Decode.{condition_of};

use crate::mem_address::MemAddress;
use crate::register::Register;

// This is Krc's `Option<Size>`.
#[derive(Clone, Copy, Debug, PartialEq, Eq)]
pub enum Size {
    NoSize,
    U8,
    U16,
    U32,
    U64,
}

// The bytes are 0, 1, 2, 4 or 8. Were these the numbers of the variants, each writer of a record would have a table, or a jump and a copy of itself for each.
impl From<Size> for u64 {
    ghost from_gives = { λ size n. n ≡ size_code size };

    fn from(size: Size) -> u64 {
        (1 << (size as u64)) / 2
    }
}

#[derive(Clone, Copy, Debug, PartialEq, Eq)]
pub enum Operand {
    NoOperand,
    Reg(Register),
    Imm(u64),
    Sym(u64),
    Label(u64),
    MemoryAddress(MemAddress),
}

// A record has two numbers of an operand, so that there is no one `From`.
impl Operand {
    pub fn tag(self) -> u64
        ensures { result ≡ tag_of self }
    {
        match self {
            Operand::NoOperand => 0,
            Operand::Reg(_) => 1,
            Operand::Imm(_) => 2,
            Operand::Sym(_) => 3,
            Operand::Label(_) => 4,
            Operand::MemoryAddress(a) => u64::from(a.base),
        }
    }

    pub fn value(self) -> u64
        ensures { result ≡ value_of self }
    {
        match self {
            Operand::NoOperand => 0,
            Operand::Reg(r) => r.number(),
            Operand::Imm(v) => v,
            Operand::Sym(k) => k,
            Operand::Label(l) => l,
            Operand::MemoryAddress(a) => a.disp,
        }
    }
}

#[derive(Clone, Copy, Debug, PartialEq, Eq)]
pub enum ConditionCode {
    E = 0,
    NE = 1,
    G = 2,
    GE = 3,
    L = 4,
    LE = 5,
    A = 6,
    AE = 7,
    B = 8,
    BE = 9,
    P = 14,
    NP = 15,
}

impl From<ConditionCode> for u64 {
    ghost from_gives = { λ cc n. (n ≡ condition_code cc) × (n < 16) };

    fn from(cc: ConditionCode) -> u64 {
        cc as u64
    }
}

// This is the way back; a number that no code has gives NP.
impl From<u64> for ConditionCode {
    ghost from_gives = { λ number cc. cc ≡ condition_of number };

    fn from(number: u64) -> ConditionCode {
        match number {
            0 => ConditionCode::E,
            1 => ConditionCode::NE,
            2 => ConditionCode::G,
            3 => ConditionCode::GE,
            4 => ConditionCode::L,
            5 => ConditionCode::LE,
            6 => ConditionCode::A,
            7 => ConditionCode::AE,
            8 => ConditionCode::B,
            9 => ConditionCode::BE,
            14 => ConditionCode::P,
            _ => ConditionCode::NP,
        }
    }
}

// These are the first nineteen of Krc's twenty-five operations, up to the last that the lowering names.
#[derive(Clone, Copy, Debug, PartialEq, Eq)]
pub enum BinOp {
    Mov = 0,
    Xchg = 1,
    Add = 2,
    Sub = 3,
    Adc = 4,
    Sbb = 5,
    And = 6,
    Or = 7,
    Xor = 8,
    Cmp = 9,
    Test = 10,
    LoadF = 11,
    StoreF = 12,
    AddF = 13,
    SubF = 14,
    MulF = 15,
    DivF = 16,
    ComiF = 17,
    UcomiF = 18,
}

impl From<BinOp> for u64 {
    ghost from_gives = { λ op n. n ≡ bin_code op };

    fn from(op: BinOp) -> u64 {
        op as u64
    }
}

#[derive(Clone, Copy, Debug, PartialEq, Eq)]
pub enum ShiftOp {
    Shl = 0,
    Shr = 1,
    Sar = 2,
}

impl From<ShiftOp> for u64 {
    ghost from_gives = { λ op n. n ≡ shift_code op };

    fn from(op: ShiftOp) -> u64 {
        op as u64
    }
}

#[derive(Clone, Copy, Debug, PartialEq, Eq)]
pub enum ComplexBinOp {
    Div = 3,
    Imul = 4,
    Idiv = 5,
}

impl From<ComplexBinOp> for u64 {
    ghost from_gives = { λ op n. n ≡ complex_code op };

    fn from(op: ComplexBinOp) -> u64 {
        op as u64
    }
}

#[derive(Clone, Copy, Debug, PartialEq, Eq)]
pub enum UnaryOp {
    Neg = 0,
    Not = 1,
    Cdq = 5,
    Cqo = 6,
}

impl From<UnaryOp> for u64 {
    ghost from_gives = { λ op n. n ≡ unary_code op };

    fn from(op: UnaryOp) -> u64 {
        op as u64
    }
}

#[derive(Clone, Copy, Debug, PartialEq, Eq)]
pub enum StackOp {
    Push = 0,
    Pop = 1,
}

impl From<StackOp> for u64 {
    ghost from_gives = { λ op n. n ≡ stack_code op };

    fn from(op: StackOp) -> u64 {
        op as u64
    }
}

#[derive(Clone, Copy, Debug, PartialEq, Eq)]
pub enum CtrlOp {
    Jmp,
    Call,
    Ret,
    JmpCC(ConditionCode),
}

// The code is 16 times the outer code plus the inner one, where there is an inner one.
impl From<CtrlOp> for u64 {
    ghost from_gives = { λ op n. n ≡ ctrl_code op };

    fn from(op: CtrlOp) -> u64 {
        match op {
            CtrlOp::Jmp => 0,
            CtrlOp::Call => 1,
            CtrlOp::Ret => 2,
            CtrlOp::JmpCC(cc) => 64 + u64::from(cc),
        }
    }
}

#[derive(Clone, Copy, Debug, PartialEq, Eq)]
pub enum StringOp {
    Stos = 4,
}

impl From<StringOp> for u64 {
    ghost from_gives = { λ op n. (n ≡ string_code op) × (n < 16) };

    fn from(op: StringOp) -> u64 {
        op as u64
    }
}

#[derive(Clone, Copy, Debug, PartialEq, Eq)]
pub enum Prefix {
    Rep = 1,
}

impl From<Prefix> for u64 {
    ghost from_gives = { λ prefix n. (n ≡ prefix_code prefix) × (n < 16) };

    fn from(prefix: Prefix) -> u64 {
        prefix as u64
    }
}

#[derive(Clone, Copy, Debug, PartialEq, Eq)]
pub enum ExtendOp {
    Movsxd = 1,
    Movzx = 2,
}

impl From<ExtendOp> for u64 {
    ghost from_gives = { λ op n. n ≡ extend_code op };

    fn from(op: ExtendOp) -> u64 {
        op as u64
    }
}

#[derive(Clone, Copy, Debug, PartialEq, Eq)]
pub enum ConvOp {
    Cvtsd2ss = 1,
    Cvtsi2sd = 2,
    Cvtsi2ss = 3,
    Cvtss2sd = 4,
    Cvttsd2si = 6,
    Cvttss2si = 7,
}

impl From<ConvOp> for u64 {
    ghost from_gives = { λ op n. n ≡ conv_code op };

    fn from(op: ConvOp) -> u64 {
        op as u64
    }
}

// Krc's `Prefix` holds a boxed instruction; here it holds the string operation that it repeats.
#[derive(Clone, Copy, Debug, PartialEq, Eq)]
pub enum Instruction {
    Binary {
        op: BinOp,
        dst: Operand,
        src: Operand,
        size: Size,
    },
    ComplexBinary {
        op: ComplexBinOp,
        dst: Operand,
        src: Operand,
        size: Size,
    },
    Convert {
        op: ConvOp,
        dst: Register,
        src: Operand,
        size: Size,
    },
    Ctrl {
        op: CtrlOp,
        target: Operand,
    },
    Extend {
        op: ExtendOp,
        dst: Register,
        src: Operand,
        src_size: Size,
        size: Size,
    },
    Lea {
        src: Operand,
        dst: Register,
        size: Size,
    },
    Label(u64),
    Prefix {
        prefix: Prefix,
        op: StringOp,
        size: Size,
    },
    SetCC {
        op: ConditionCode,
        dst: Operand,
    },
    Shift {
        op: ShiftOp,
        dst: Operand,
        src: Operand,
        size: Size,
    },
    Stack {
        op: StackOp,
        value: Operand,
        size: Size,
    },
    Unary {
        op: UnaryOp,
        dst: Operand,
        size: Size,
    },
}
