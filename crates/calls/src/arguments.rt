// The arguments of a call stand in its sheet behind the call's cells, `count` of them from cell `from` on.
ghost use Rattle.std.specs.Prelude.{◌≡◌, ◌+◌, ◌*◌, ◌≤◌, ◌<◌};
ghost use Rattle.cells.specs.Cells.{cells};
ghost use Rattle.ir.specs.Function.{operand_at};
ghost use Rattle.layout.specs.Limits.{most_arguments};

use ir::Operand as IrOp;
use ir::read::operand_at;

#[derive(Clone, Copy)]
pub struct Arguments<'a> {
    pub sheet: &'a [u8],
    pub count: u64,
    pub from: usize,
    ghost present: { from + 4 * count ≤ cells sheet.now },
    ghost few: { count ≤ most_arguments },
}

impl<'a> Arguments<'a> {
    pub fn at(&self, i: u64) -> IrOp
        requires { i < self.now.count }
        ensures { result ≡ operand_at self.now.sheet.now (self.now.from + 4 * i) }
    {
        operand_at(self.sheet, self.from + 4 * i as usize)
    }
}
