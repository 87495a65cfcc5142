// The parameters of a function stand in its sheet, `count` of them from cell `from` on. They are as the arguments in calls: one type for both would take what
// reads an item, its width and the limit from a trait, and is no plainer.
ghost use Rattle.std.specs.Prelude.{◌≡◌, ◌+◌, ◌*◌, ◌≤◌, ◌<◌};
ghost use Rattle.cells.specs.Cells.{cells};
ghost use Rattle.ir.specs.Function.{var_at};
ghost use Rattle.layout.specs.Limits.{most_parameters};

use ir::VarId;
use ir::read::var_at;

#[derive(Clone, Copy)]
pub struct Parameters<'a> {
    pub sheet: &'a [u8],
    pub count: u64,
    pub from: usize,
    ghost present: { from + 3 * count ≤ cells sheet.now },
    ghost few: { count ≤ most_parameters },
}

impl<'a> Parameters<'a> {
    pub fn at(&self, i: u64) -> VarId
        requires { i < self.now.count }
        ensures { result ≡ var_at self.now.sheet.now (self.now.from + 3 * i) }
    {
        var_at(self.sheet, self.from + 3 * i as usize)
    }
}
