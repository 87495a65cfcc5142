// An instruction of a sheet is known by its first cell. Its parts are read by the methods in `read`.
ghost use Rattle.std.specs.Prelude.{◌+◌, ◌≤◌};
ghost use Rattle.cells.specs.Cells.{cells};

// The instruction begins at this cell, and the sheet has its thirteen cells.
#[derive(Clone, Copy)]
pub struct Line<'a> {
    pub sheet: &'a [u8],
    pub at: usize,
    ghost whole: { at + 13 ≤ cells sheet.now },
}
