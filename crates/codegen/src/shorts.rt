// It is said here which operands are unsigned shorts: a cast of one to eight bytes has zeros above (M-105).
ghost use Rattle.std.specs.Prelude.{◌≡◌};
ghost use Rattle.codegen.specs.Instructions.{is_unsigned_short};

use ir::Operand as IrOp;

// A variable or a constant can be an unsigned short; an array is none.
pub fn is_unsigned_short(op: IrOp) -> bool
    ensures { result ≡ is_unsigned_short op }
{
    match op {
        IrOp::Var(v) => v.ty.is_scalar() && v.ty.code == 4,
        IrOp::Int(_, short, unsigned) => short && unsigned,
        _ => false,
    }
}
