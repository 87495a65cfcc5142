// This is Krc's intermediate form, as far as the lowering reads it: types, variables, operands and instructions, with the tables and the sheet that hold
// them in cells. Krc's `String`, `Vec` and `Box` are cells here: a text is its number, a nested array one element code and the product of the counts.
#![tactic(auto)]

pub mod lines;
pub mod read;
pub mod types;

ghost use Rattle.std.specs.Prelude.{◌≡◌};
ghost use Rattle.ir.specs.Function.{unary_op, binary_op};

// Krc's `Type` is an element code from 1 to 12, and a count, which is the pattern of -1 where the type is no array. As a return type code 0 is none.
// The code stays a number, and so does what asks for it: `type_at` gives that of any cell and cannot fail.
#[derive(Clone, Copy, Debug, PartialEq, Eq)]
pub struct Type {
    pub code: u64,
    pub count: u64,
}

#[derive(Clone, Copy, Debug, PartialEq, Eq)]
pub struct VarId {
    pub id: u64,
    pub ty: Type,
}

#[derive(Clone, Copy)]
pub enum Operand {
    Var(VarId),
    // An Int has a two's complement pattern, whether it is short, and whether it is unsigned.
    Int(u64, bool, bool),
    Float(u64),
    Bool(bool),
    Address(VarId),
    DataAddress(u64),
    Null,
}

#[derive(Clone, Copy, Debug, PartialEq, Eq)]
pub enum UnaryOp {
    Neg,
    BitNot,
    Not,
}

// A position in Krc's `UnaryOp`. The layout lets none above 2 pass.
impl From<u64> for UnaryOp {
    ghost from_gives = { λ k op. op ≡ unary_op k };

    #[tactic(auto, unfolding(crate::specs::Function::unary_op), using(crate::proofs::Rest::last_unary))]
    fn from(position: u64) -> UnaryOp {
        match position {
            0 => UnaryOp::Neg,
            1 => UnaryOp::BitNot,
            _ => UnaryOp::Not,
        }
    }
}

#[derive(Clone, Copy, Debug, PartialEq, Eq)]
pub enum BinaryOp {
    Or,
    And,
    BitOr,
    BitXor,
    BitAnd,
    Eq,
    NotEq,
    Lt,
    Le,
    Gt,
    Ge,
    Shl,
    Shr,
    Add,
    Sub,
    Mul,
    Div,
    Rem,
}

// A position in Krc's `BinaryOp`. The layout lets none above 17 pass.
impl From<u64> for BinaryOp {
    ghost from_gives = { λ k op. op ≡ binary_op k };

    #[tactic(auto, unfolding(crate::specs::Function::binary_op), using(crate::proofs::Rest::last_binary))]
    fn from(position: u64) -> BinaryOp {
        match position {
            0 => BinaryOp::Or,
            1 => BinaryOp::And,
            2 => BinaryOp::BitOr,
            3 => BinaryOp::BitXor,
            4 => BinaryOp::BitAnd,
            5 => BinaryOp::Eq,
            6 => BinaryOp::NotEq,
            7 => BinaryOp::Lt,
            8 => BinaryOp::Le,
            9 => BinaryOp::Gt,
            10 => BinaryOp::Ge,
            11 => BinaryOp::Shl,
            12 => BinaryOp::Shr,
            13 => BinaryOp::Add,
            14 => BinaryOp::Sub,
            15 => BinaryOp::Mul,
            16 => BinaryOp::Div,
            _ => BinaryOp::Rem,
        }
    }
}

// A call may have a destination. It has the number of its arguments, which follow it in the sheet.
#[derive(Clone, Copy)]
pub enum Instr {
    Copy {
        dest: VarId,
        src: Operand,
    },
    Unary {
        dest: VarId,
        op: UnaryOp,
        src: Operand,
    },
    Binary {
        dest: VarId,
        op: BinaryOp,
        left: Operand,
        right: Operand,
    },
    Cast {
        dest: VarId,
        src: Operand,
    },
    Zero(VarId),
    Call {
        dest: Option<VarId>,
        symbol: u64,
        count: u64,
    },
    Label(u64),
    Jump(u64),
    JumpIfNot {
        cond: Operand,
        target: u64,
    },
    Return(Operand),
    Comment,
}
