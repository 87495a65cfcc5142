// This is `operand_kind` of Krc's codegen/instructions.rs: an operand's size, whether it is a float, and whether it is unsigned.
ghost use Rattle.std.specs.Prelude.{◌≡◌, cond};
ghost use Rattle.codegen.specs.Instructions.{operand_kind};
ghost use Rattle.utils.specs.Answers.{held};
ghost use Rattle.utils.specs.Kinds.{kind_result_says, var_kind};

use crate::context::Context;
use cells::refusals::Refusal;
use ir::{Operand as IrOp, VarId};

// It has the size in bytes of an operand's value, whether it is a float, and whether it is unsigned.
#[derive(Clone, Copy, Debug, PartialEq, Eq)]
pub struct Kind {
    pub size: u64,
    pub float: bool,
    pub unsigned: bool,
}

// A constant has its size by its flag.
fn constant_size(short: bool) -> u64
    ensures { result ≡ cond short 4 8 }
{
    if short { 4 } else { 8 }
}

fn var_kind(v: VarId) -> Result<Kind, Refusal>
    ensures { kind_result_says result ≡ var_kind v }
{
    Ok(Kind {
        size: v.ty.size()?,
        float: v.ty.is_float(),
        unsigned: v.ty.is_unsigned(),
    })
}

// A float constant is looked up in the tables.
#[tactic(auto, unfolding(codegen::specs::Instructions::operand_kind))]
pub fn operand_kind(context: &Context, op: IrOp) -> Result<Kind, Refusal>
    ensures { kind_result_says result ≡ operand_kind (held context.now) op }
{
    let (size, float, unsigned) = match op {
        IrOp::Var(v) => return var_kind(v),
        IrOp::Int(_, short, unsigned) => (constant_size(short), false, unsigned),
        IrOp::Float(k) => (constant_size(context.float_short(k)?), true, false),
        IrOp::Bool(_) => (1, false, true),
        IrOp::Address(_) | IrOp::DataAddress(_) | IrOp::Null => (8, false, true),
    };
    Ok(Kind {
        size,
        float,
        unsigned,
    })
}
