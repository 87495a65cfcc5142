// Operands and constants are tested here.
ghost use Rattle.std.specs.Prelude.{◌≡◌, ◌≤◌, ◌^◌};
ghost use Rattle.ir.specs.Function.{function_of};
ghost use Rattle.machine.specs.Steps.{width};
ghost use Rattle.machine.specs.Plain.{is_plain_operand, long_constant, is_bool};
ghost use Rattle.plain.specs.Parts.{lies_below, is_same};

use crate::vars::{is_bool_type, is_scalar_var};
use ir::read::Sheet;
use ir::{Operand, VarId};

// Numbers from -2^31 to this one, which is left out, have the pattern of four bytes, be they signed or not.
pub const SHORT_END: u64 = 1 << 32;

// Numbers from -2^31 to this one, which is left out, have the pattern of four signed bytes.
pub const SMALL_END: u64 = 1 << 31;

// It says whether this is the pattern of a number from -2^31 to `end` - 1.
fn lies_below(value: u64, end: u64) -> bool
    requires { end ≤ 2 ^ 63 }
    ensures { result ≡ lies_below end value }
{
    value.wrapping_add(0x8000_0000) < end + 0x8000_0000
}

// A plain operand is no float constant, string address or Address; a short constant has four bytes.
pub fn is_plain_operand(sheet: &Sheet, operand: Operand) -> bool
    ensures { result ≡ is_plain_operand (function_of sheet.now.bytes.now) operand }
{
    match operand {
        Operand::Var(var) => is_scalar_var(sheet, var),
        Operand::Int(value, short, _) => !short || lies_below(value, SHORT_END),
        Operand::Bool(_) | Operand::Null => true,
        _ => false,
    }
}

// A long constant lies in -2^31 to `end` - 1.
pub fn long_lies_below(operand: Operand, end: u64) -> bool
    requires { end ≤ 2 ^ 63 }
    ensures { result ≡ long_constant (lies_below end) operand }
{
    match operand {
        Operand::Int(value, short, _) => short || lies_below(value, end),
        _ => true,
    }
}

pub fn is_bool(operand: Operand) -> bool
    ensures { result ≡ is_bool operand }
{
    match operand {
        Operand::Var(var) => is_bool_type(var.ty),
        Operand::Bool(_) => true,
        _ => false,
    }
}

// A variable has its bytes, an Int 4 or 8 by its flag, a Bool 1, Null 8.
#[tactic(auto, unfolding(machine::specs::Steps::width))]
pub fn width(operand: Operand) -> u64
    ensures { result ≡ width operand }
{
    match operand {
        Operand::Var(var) => var.ty.bytes(),
        Operand::Int(_, short, _) => { if short { 4 } else { 8 } }
        Operand::Bool(_) => 1,
        Operand::Null => 8,
        _ => 0,
    }
}

pub fn is_same(dest: VarId, operand: Operand) -> bool
    ensures { result ≡ is_same dest operand }
{
    width(operand) == dest.ty.bytes()
}
