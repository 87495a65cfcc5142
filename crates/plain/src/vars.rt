// Types and variables are tested here.
ghost use Rattle.std.specs.Prelude.{◌≡◌};
ghost use Rattle.ir.specs.Function.{function_of};
ghost use Rattle.machine.specs.Plain.{is_plain_code, is_plain_return, is_entry, is_scalar_var, is_bool_type, is_one_byte};

use ir::read::Sheet;
use ir::{Type, VarId};

// A plain code is that of an integer, Bool, Char, Byte or Address.
pub fn is_plain_code(code: u64) -> bool
    ensures { result ≡ is_plain_code code }
{
    matches!(code, 1..=4 | 7..=10)
}

// A plain return type is none, or no array and of a plain code or Null.
pub fn is_plain_return(ty: Type) -> bool
    ensures { result ≡ is_plain_return ty }
{
    ty.is_scalar() && (matches!(ty.code, 0 | 12) || is_plain_code(ty.code))
}

// A variable's own type equals its entry.
#[tactic(auto, using(crate::proofs::Tests::entry_is))]
pub fn is_entry(sheet: &Sheet, var: VarId) -> bool
    ensures { result ≡ is_entry (function_of sheet.now.bytes.now) var }
{
    Some(var.ty) == sheet.entry(var.id) && is_plain_code(var.ty.code)
}

// A variable's own type equals its entry and is no array.
pub fn is_scalar_var(sheet: &Sheet, var: VarId) -> bool
    ensures { result ≡ is_scalar_var (function_of sheet.now.bytes.now) var }
{
    is_entry(sheet, var) && var.ty.is_scalar()
}

pub fn is_bool_type(ty: Type) -> bool
    ensures { result ≡ is_bool_type ty }
{
    ty.code == 7 && ty.is_scalar()
}

pub fn is_one_byte(var: VarId) -> bool
    ensures { result ≡ is_one_byte var }
{
    var.ty.bytes() == 1
}
