// Variables, parameters and the return type are tested here.
ghost use Rattle.std.specs.Prelude.{◌≡◌, ◌+◌, ◌-◌, ◌*◌, ◌<◌, ◌≤◌};
ghost use Rattle.cells.specs.Cells.{cells};
ghost use Rattle.ir.specs.Function.{function_of, types_at, vars_at, var_at, body_from};
ghost use Rattle.machine.specs.Plain.{every, is_scalar_var, is_absent, are_distinct, is_plain_head};
ghost use Rattle.plain.specs.Parts.{has_plain_code};

use crate::vars::{is_plain_code, is_plain_return, is_scalar_var};
use cells::cell_at;
use ir::VarId;
use ir::read::{Sheet, type_at, var_at};

// It says whether the types of all variables have plain codes.
fn are_plain_types(sheet: &Sheet) -> bool
    ensures { result ≡ every has_plain_code (function_of sheet.now.bytes.now).vars }
{
    (0..cell_at(sheet.bytes, 0)).all(|k| {
        let ty = type_at(sheet.bytes, 6 + 2 * k as usize);
        is_plain_code(ty.code)
    })
}

// A sheet has this many parameters, from this cell on.
#[derive(Clone, Copy)]
struct Params<'a> {
    sheet: Sheet<'a>,
    count: u64,
    from: usize,
    ghost whole: { from + 3 * count ≤ cells sheet.bytes.now },
}

impl<'a> Params<'a> {
    fn at(&self, k: u64) -> VarId
        requires { k < self.now.count }
        ensures { result ≡ var_at self.now.sheet.bytes.now (self.now.from + 3 * k) }
    {
        var_at(self.sheet.bytes, self.from + 3 * k as usize)
    }

    // It says whether no parameter behind number `k` has its id.
    fn is_last_of_id(&self, k: u64) -> bool
        requires { k < self.now.count }
        ensures { let s = self.now.sheet.bytes.now in
            let p = var_at s (self.now.from + 3 * k) in
            result ≡ is_absent p.id (vars_at s (self.now.count - (k + 1)) (self.now.from + 3 * (k + 1))) }
    {
        // A copy is known to have a count that fits, and so the sum does.
        let params = *self;
        let id = params.at(k).id;
        (k + 1..params.count).all(|j| params.at(j).id != id)
    }

    fn are_distinct(&self) -> bool
        ensures { result ≡ are_distinct (vars_at self.now.sheet.bytes.now self.now.count self.now.from) }
    {
        (0..self.count).all(|k| self.is_last_of_id(k))
    }

    // It says whether they have their entries' types, and are no arrays.
    fn are_scalar(&self) -> bool
        ensures { let s = self.now.sheet.bytes.now in
            result ≡ every (is_scalar_var (function_of s)) (vars_at s self.now.count self.now.from) }
    {
        (0..self.count).all(|k| is_scalar_var(&self.sheet, self.at(k)))
    }
}

// There may be any number of parameters; their ids are distinct, and none is an array.
#[tactic(auto, unfolding(ir::specs::Function::function_of, machine::specs::Plain::is_plain_head))]
pub fn is_plain_head(sheet: &Sheet) -> bool
    requires { body_from sheet.now.bytes.now ≤ cells sheet.now.bytes.now }
    ensures { result ≡ is_plain_head (function_of sheet.now.bytes.now) }
{
    let params = Params {
        sheet: *sheet,
        count: cell_at(sheet.bytes, 1),
        from: 6 + 2 * cell_at(sheet.bytes, 0) as usize,
    };
    are_plain_types(sheet)
        && is_plain_return(type_at(sheet.bytes, 3))
        && params.are_distinct()
        && params.are_scalar()
}
